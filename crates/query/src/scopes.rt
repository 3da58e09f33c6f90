// What the check keeps for each of 100 nodes: whether an earlier node names it, and the variables that are bound there,
// as a mask with bit v for variable v. Two arrays of 100 entries, and none of `Option`s: the project names them.
ghost use Rattle.std.specs.Prelude.{◌≡◌, ◌<◌, ◌≤◌};
ghost use Rattle.instance.specs.Header.{max_columns};
ghost use Rattle.query.specs.Words.{max_nodes};
ghost use Rattle.query.specs.Scope.{at_the_top, naming};

#[derive(Drop)]
pub struct Scopes {
    pub named: [bool; 100],
    pub masks: [u32; 100],
}

impl Scopes {
    // Node 0 is the top, and has the candidate's variables, one for each of its cells.
    pub fn at_the_top(cells: usize) -> Scopes
        requires { cells ≤ max_columns }
        ensures { result ≡ at_the_top cells }
    {
        let mut scopes = Scopes {
            named: [false; 100],
            masks: [0; 100],
        };
        scopes.name(0, (1u32 << cells as u32) - 1);
        scopes
    }

    // A node is named as a child, in the given scope.
    pub fn name(&mut self, node: usize, mask: u32)
        requires { node < max_nodes }
        ensures { self.new ≡ naming self.old node mask }
    {
        self.named[node] = true;
        self.masks[node] = mask;
    }
}
