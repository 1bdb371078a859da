// Powers by squaring, and the constant b of the swamp losses for both of them.
ghost use Rattle.std.specs.Prelude.{◌≡◌};
ghost use Rattle.standins.specs.Power.{power20_of, power30_of, b20, b30, IsB};

#[tactic(auto, unfolding(crate::specs::Power::power20_of, crate::specs::Series::squarings, crate::specs::Series::down_from))]
pub fn power20(a: f64) -> f64
    ensures { result ≡ power20_of a }
{
    let a2 = a * a;
    let a4 = a2 * a2;
    let a8 = a4 * a4;
    a4 * (a8 * a8)
}

#[tactic(auto, unfolding(crate::specs::Power::power30_of, crate::specs::Series::squarings, crate::specs::Series::down_from))]
pub fn power30(a: f64) -> f64
    ensures { result ≡ power30_of a }
{
    let a2 = a * a;
    let a4 = a2 * a2;
    let a8 = a4 * a4;
    a2 * a4 * a8 * (a8 * a8)
}

pub fn b20() -> f64
    ensures same { result ≡ b20 }
    ensures nearest { IsB 20 result }
{
    0.9466181999720432
}

pub fn b30() -> f64
    ensures same { result ≡ b30 }
    ensures nearest { IsB 30 result }
{
    0.9640877546898133
}
