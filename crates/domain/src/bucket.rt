// The bucket of a cell in a hash table with 1,024 buckets.
ghost use Rattle.std.specs.Prelude.{◌≡◌};
ghost use Rattle.domain.specs.Bucket.{bucket_of};

// A cell's bucket is the upper 10 of the lower 32 bits of its product with this number, so that evenly spaced values
// spread.
const SPREAD: u32 = 2_654_435_761;

pub fn bucket_of(cell: u32) -> usize
    ensures { result ≡ bucket_of cell }
{
    (cell.wrapping_mul(SPREAD) >> 22) as usize
}
