use crate::makers::{contract, kwh, plant};
use market::{Class, Rank, Season, Settlement, settle};
use sharing::{EqualRatio, InOrder};
use std::test::Fail;
use units::{Grains, Hundredths};

fn settled(commissioning: u64, over: u64, net: i64) -> Settlement {
    Settlement {
        commissioning: kwh(commissioning),
        over_generation: kwh(over),
        over_deviation: kwh(over),
        shortfall: kwh(0),
        assessed: Hundredths::from_count(0),
        net: Grains::from_count(net),
    }
}

#[test]
fn every_rank_full(rt: HostRuntime) -> Result<(), Fail> {
    let contracts = [
        contract(Rank::InterProvincePriority, 300_000),
        contract(Rank::InterProvinceMarket, 700_000),
        contract(Rank::Retained, 1_000_000),
        contract(Rank::Aluminium, 500_000),
        contract(Rank::InProvincePriority, 2_000_000),
        contract(Rank::InProvinceMarket, 1_200_000),
    ];
    let mut energies = [kwh(1); 6];
    let mut amounts = [Grains::from_count(1); 6];
    let figures = plant(Class::Hydro, Season::Wet, 6_500_000, 0);
    let answer = settle(
        &EqualRatio,
        figures,
        &contracts,
        &mut energies,
        &mut amounts,
    )?;
    assert_eq!(rt; answer.over_generation, kwh(800_000));
    assert_eq!(rt; answer.assessed, Hundredths::from_count(68_600_000));
    // 5,700,000 kWh at 0.25 yuan, less the assessment; over-generation is worth nothing in the wet season
    assert_eq!(rt;
        answer.net,
        Grains::from_count(142_500_000_000_000 - 1_740_519_200_000)
    );
    assert_eq!(rt; energies[5], kwh(1_200_000));
    assert_eq!(rt; amounts[0], Grains::from_count(7_500_000_000_000));
    Ok(())
}

#[test]
fn a_rank_is_shared_by_the_rule(rt: HostRuntime) -> Result<(), Fail> {
    let contracts = [
        contract(Rank::InProvinceMarket, 1),
        contract(Rank::InProvincePriority, 2),
        contract(Rank::InProvinceMarket, 1),
    ];
    let figures = plant(Class::Coal, Season::Level, 3, 0);
    let mut energies = [kwh(9); 3];
    let mut amounts = [Grains::from_count(9); 3];
    let _ = settle(
        &EqualRatio,
        figures,
        &contracts,
        &mut energies,
        &mut amounts,
    )?;
    assert_eq!(rt; energies, [kwh(0), kwh(2), kwh(1)]);
    let _ = settle(&InOrder, figures, &contracts, &mut energies, &mut amounts)?;
    assert_eq!(rt; energies, [kwh(1), kwh(2), kwh(0)]);
    assert_eq!(rt;
        amounts,
        [
            Grains::from_count(25_000_000),
            Grains::from_count(50_000_000),
            Grains::from_count(0),
        ]
    );
    Ok(())
}

#[test]
fn commissioning_comes_before_priority(rt: HostRuntime) -> Result<(), Fail> {
    let contracts = [
        contract(Rank::InProvincePriority, 400_000),
        contract(Rank::InProvinceMarket, 500_000),
    ];
    let figures = plant(Class::Renewable, Season::Level, 1_000_000, 550_000);
    let mut energies = [kwh(0); 2];
    let mut amounts = [Grains::from_count(0); 2];
    let answer = settle(
        &EqualRatio,
        figures,
        &contracts,
        &mut energies,
        &mut amounts,
    )?;
    assert_eq!(rt; answer.commissioning, kwh(550_000));
    assert_eq!(rt; answer.over_generation, kwh(0));
    assert_eq!(rt; answer.over_deviation, kwh(100_000));
    assert_eq!(rt; energies, [kwh(0), kwh(450_000)]);
    Ok(())
}

#[test]
fn missing_aluminium_is_held_back(rt: HostRuntime) -> Result<(), Fail> {
    let contracts = [contract(Rank::Aluminium, 100)];
    let mut energies = [kwh(0)];
    let mut amounts = [Grains::from_count(0)];
    let dry = plant(Class::Hydro, Season::Dry, 98, 0);
    let answer = settle(&EqualRatio, dry, &contracts, &mut energies, &mut amounts)?;
    assert_eq!(rt; answer.assessed, Hundredths::from_count(0));
    assert_eq!(rt;
        answer.net,
        Grains::from_count(98 * 100 * 250_000 - 2 * 100 * 60_000)
    );
    let wet = plant(Class::Hydro, Season::Wet, 98, 0);
    let answer = settle(&EqualRatio, wet, &contracts, &mut energies, &mut amounts)?;
    assert_eq!(rt; answer.net, Grains::from_count(98 * 100 * 250_000));
    Ok(())
}

#[test]
fn no_contracts_and_no_meter(rt: HostRuntime) -> Result<(), Fail> {
    let figures = plant(Class::Gas, Season::Dry, 0, 0);
    let answer = settle(&InOrder, figures, &[], &mut [], &mut [])?;
    assert_eq!(rt; answer, settled(0, 0, 0));
    Ok(())
}
