// Statements about the definitions alone. Each function's contract is the statement; the function itself does nothing.
ghost use Rattle.sharing.specs.Questions.{RankAccepted, CompensationAccepted};

// No share that the settlement of a month asks for is declined.
pub fn settlement_shares_are_accepted()
    ensures rank { RankAccepted }
    ensures compensation { CompensationAccepted }
{}
