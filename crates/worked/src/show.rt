// Prints what the calls return, as lines of text.
use answer::asked::Asked;
use calculus::answer::Answer;
use calculus::refusal::Refusal;
use instance::header::Header;
use rerun::reran::Reran;
use std::io;

// A name is bytes and not text, which would ask more of callers.
pub fn answer(rt: &impl Print, name: &[u8], answer: Answer) -> io::Result<()> {
    rt.write_all(name)?;
    match answer {
        Ok(n) => println!(rt; ": done {n}"),
        Err(why) => println!(rt; ": {why}"),
    }
}

// The answer of a call that uses the log, and the log's words in use.
pub fn logged(rt: &impl Print, name: &[u8], answer: Answer, used: usize) -> io::Result<()> {
    rt.write_all(name)?;
    match answer {
        Ok(n) => println!(rt; ": done {n}, log used {used}"),
        Err(why) => println!(rt; ": {why}, log used {used}"),
    }
}

// A line that names what the next lines show.
pub fn heading(rt: &impl Print, name: &[u8]) -> io::Result<()> {
    rt.write_all(name)?;
    println!(rt; ":")
}

fn items(rt: &impl Print, list: &[u32]) -> io::Result<()> {
    for n in list {
        print!(rt; " {n}")?;
    }
    Ok(())
}

fn listed(rt: &impl Print, label: &str, list: &[u32]) -> io::Result<()> {
    print!(rt; "  {label}")?;
    items(rt, list)?;
    println!(rt; "")
}

pub fn words(rt: &impl Print, list: &[u32]) -> io::Result<()> {
    listed(rt, "words", list)
}

pub fn log(rt: &impl Print, list: &[u32]) -> io::Result<()> {
    listed(rt, "log", list)
}

pub fn log_used(rt: &impl Print, words: usize) -> io::Result<()> {
    println!(rt; "  log used {words}")
}

pub fn bytes(rt: &impl Print, list: &[u8]) -> io::Result<()> {
    print!(rt; "  bytes")?;
    for byte in list {
        print!(rt; " {byte:02x}")?;
    }
    println!(rt; "")
}

pub fn header(rt: &impl Print, h: Header) -> io::Result<()> {
    print!(rt; "  relations {} arities", h.relations)?;
    items(rt, &h.arities)?;
    print!(rt; " used {} rows", h.used)?;
    items(rt, &h.counts)?;
    println!(rt; "")
}

pub fn plot(rt: &impl Print, h: Header, list: &[u32]) -> io::Result<()> {
    header(rt, h)?;
    words(rt, list)
}

pub fn asked(rt: &impl Print, name: &[u8], asked: Asked) -> io::Result<()> {
    rt.write_all(name)?;
    match asked {
        Ok(verdict) => println!(rt; ": {verdict}"),
        Err(why) => println!(rt; ": {why}"),
    }
}

pub fn reran(rt: &impl Print, name: &[u8], reran: Result<Reran, Refusal>) -> io::Result<()> {
    rt.write_all(name)?;
    match reran {
        Ok(runs) => {
            let first = runs.first;
            match runs.second {
                Ok(second) => println!(rt; ": {first}, then {second}"),
                Err(why) => println!(rt; ": {first}, then {why}"),
            }
        }
        Err(why) => println!(rt; ": {why}"),
    }
}
