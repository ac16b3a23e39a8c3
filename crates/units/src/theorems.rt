ghost use Rattle.units.specs.Payments.{SumsFit, CarriesStay};

// 64 bits hold every net, every carry and their sum, and a close keeps a carry within its bound.
pub fn sums_fit()
    ensures fit { SumsFit }
    ensures stay { CarriesStay }
{}
