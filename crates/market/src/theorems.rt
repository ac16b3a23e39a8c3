// Statements about the definitions alone. Each function's contract is the statement; the function itself does nothing.
ghost use Rattle.market.specs.Admitting.{SoundAccepted};
ghost use Rattle.market.specs.Examples.{TableHolds};
ghost use Rattle.market.specs.Kinds.{NumbersAgree};

// A number names a class or a rank exactly where that class or rank has it.
pub fn numbers_agree()
    ensures { NumbersAgree }
{}

// The worked examples come out as their table says.
pub fn examples_hold()
    ensures { TableHolds }
{}

// Figures within all limits are settled, whatever they are.
pub fn sound_figures_are_accepted()
    ensures { SoundAccepted }
{}
