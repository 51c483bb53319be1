// What is written of a label and of a state.
use state_record::state::State;
use std::io;

// The recipe at a position: a public name or an alias.
fn recipe(rt: &impl Print, labels: &[u8], at: usize) -> io::Result<()> {
    if let [kind, name, ..] = labels.get(at..).unwrap_or_default() {
        if *kind == 1 {
            rt.print(" alias")?;
        }
        print!(rt; " {name}")?;
    }
    Ok(())
}

// What the label at a position is, and its recipes.
fn kind(rt: &impl Print, labels: &[u8], at: usize) -> io::Result<()> {
    match labels.get(at) {
        Some(3) => {
            rt.print("output")?;
            recipe(rt, labels, at + 1)
        }
        Some(4) => {
            rt.print("input")?;
            recipe(rt, labels, at + 1)?;
            recipe(rt, labels, at + 3)
        }
        Some(_) => rt.print("silent"),
        None => Ok(()),
    }
}

// The label at a position, behind so many blanks, and how many steps it has.
pub(crate) fn label(
    rt: &impl Print,
    labels: &[u8],
    at: usize,
    deep: usize,
    count: usize,
) -> io::Result<()> {
    print!(rt; "{:deep$}", "")?;
    kind(rt, labels, at)?;
    println!(rt; ": {count} steps")
}

// The numbers of a state with so many aliases, behind so many blanks.
pub(crate) fn state(rt: &impl Print, state: State, known: usize, deep: usize) -> io::Result<()> {
    println!(rt;
        "{:deep$}{} {} {known} {}",
        "", state.threads, state.names, state.nodes
    )
}

// That there is no state, since it would be over a limit.
pub(crate) fn over(rt: &impl Print, deep: usize) -> io::Result<()> {
    println!(rt; "{:deep$}over a limit", "")
}
