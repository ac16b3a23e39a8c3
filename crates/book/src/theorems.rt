// Statements about the definitions alone. Each function's contract is the statement; the function itself does nothing.
ghost use Rattle.book.specs.Tallies.{RunLaw};

// Of every run of calls on a book that was opened, under every rule that keeps the laws of sharing.
pub fn run_law_stands()
    ensures { RunLaw }
{}
