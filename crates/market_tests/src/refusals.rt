use crate::makers::{contract, kwh, micro, plant};
use market::{Class, Contract, PlantFigures, Rank, Refusal, Season, settle};
use sharing::EqualRatio;
use std::test::Fail;
use units::Grains;

// Why two contracts of a plant are declined, with slices of two places, and that these stand as they did.
fn declined(figures: PlantFigures, contracts: &[Contract]) -> Result<Option<Refusal>, Fail> {
    let mut energies = [kwh(7); 2];
    let mut amounts = [Grains::from_count(7); 2];
    let why = settle(&EqualRatio, figures, contracts, &mut energies, &mut amounts).err();
    if why.is_some() && (energies != [kwh(7); 2] || amounts != [Grains::from_count(7); 2]) {
        return Err(Fail::new("a settlement that was declined changed a slice"));
    }
    Ok(why)
}

#[test]
fn in_the_order_of_the_checks(rt: HostRuntime) -> Result<(), Fail> {
    let coal = plant(Class::Coal, Season::Dry, 5, 6);
    let past = [
        contract(Rank::Retained, 3_000_000_001),
        contract(Rank::Retained, 1),
    ];
    assert_eq!(rt; declined(coal, &past)?, Some(Refusal::PastLimit));
    let retained = [
        contract(Rank::Retained, 3_000_000_000),
        contract(Rank::Retained, 1),
    ];
    assert_eq!(rt; declined(coal, &retained)?, Some(Refusal::NotHeld));
    let hydro = plant(Class::Hydro, Season::Dry, 5, 6);
    assert_eq!(rt; declined(hydro, &retained)?, Some(Refusal::AboveMeter));
    let metered = plant(Class::Hydro, Season::Dry, 6, 6);
    assert_eq!(rt; declined(metered, &retained)?, Some(Refusal::ContractSum));
    assert_eq!(rt;
        declined(metered, &[contract(Rank::Retained, 1)])?,
        Some(Refusal::SliceLength)
    );
    assert_eq!(rt; declined(metered, &[contract(Rank::Retained, 1); 2])?, None);
    Ok(())
}

#[test]
fn commissioning_is_no_contract(rt: HostRuntime) -> Result<(), Fail> {
    let hydro = plant(Class::Hydro, Season::Dry, 5, 0);
    let contracts = [
        contract(Rank::Commissioning, 1),
        contract(Rank::Retained, 1),
    ];
    assert_eq!(rt; declined(hydro, &contracts)?, Some(Refusal::NotHeld));
    Ok(())
}

#[test]
fn figures_past_their_limits(rt: HostRuntime) -> Result<(), Fail> {
    let two = [contract(Rank::InProvinceMarket, 1); 2];
    let mut figures = plant(Class::Gas, Season::Wet, 3_000_000_001, 0);
    assert_eq!(rt; declined(figures, &two)?, Some(Refusal::PastLimit));
    figures = plant(Class::Gas, Season::Wet, 3_000_000_000, 0);
    assert_eq!(rt; declined(figures, &two)?, None);
    figures.residential = micro(1_000_001);
    assert_eq!(rt; declined(figures, &two)?, Some(Refusal::PastLimit));
    figures.residential = micro(1_000_000);
    figures.side = Grains::from_count(300_000_000_000_000_001);
    assert_eq!(rt; declined(figures, &two)?, Some(Refusal::PastLimit));
    Ok(())
}

#[test]
fn too_many_contracts(rt: HostRuntime) -> Result<(), Fail> {
    let figures = plant(Class::Gas, Season::Wet, 300, 0);
    let contracts = [contract(Rank::InProvinceMarket, 1); 257];
    assert_eq!(rt;
        declined(figures, &contracts)?,
        Some(Refusal::TooManyContracts)
    );
    let mut energies = [kwh(0); 256];
    let mut amounts = [Grains::from_count(0); 256];
    let most = &contracts[0..256];
    let answer = settle(&EqualRatio, figures, most, &mut energies, &mut amounts)?;
    assert_eq!(rt; answer.over_generation, kwh(44));
    assert_eq!(rt; energies, [kwh(1); 256]);
    Ok(())
}
