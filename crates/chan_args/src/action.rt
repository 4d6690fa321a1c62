//! What a command does with a deck.

/// The action of a run on the deck.
#[derive(Clone, Copy, PartialEq, Eq)]
pub enum Action {
    /// Writes the line of the verdict.
    Verify,
    /// Writes a row for each reachable place, and then the line of the verdict; a wide listing is
    /// for people.
    List { wide: bool },
    /// Writes a row for each doubleword of a range of storage, reached or not, and then the line of
    /// the verdict.
    Range { start: u32, len: u32 },
    /// Writes the explanation of the verdict.
    Why(Asked),
    /// Writes the picture of the program in Graphviz's language.
    Graph,
    /// Writes what the deck's program needs of each job under which it may run, and what it keeps,
    /// or the deck with its least job; or where no job will do, the explanation of the no that the
    /// program's open job has.
    Needs { deck: bool },
}

/// What an explanation tells.
#[derive(Clone, Copy, PartialEq, Eq)]
pub enum Asked {
    /// The verdict's offence, and the address and reason of each other.
    First,
    /// The same, with the cause of each other.
    All,
    /// The first offence at this address in place of the verdict's, and no other.
    At(u32),
}
