// The stand-ins on numbers.
ghost use Rattle.std.specs.Prelude.{◌≡◌};
ghost use Rattle.root.specs.Root.{root_of, IsRoot};
ghost use Rattle.standins.specs.Num.{abs_of};
ghost use Rattle.standins.specs.Cut.{cut_of};
ghost use Rattle.standins.specs.Power.{power20_of, power30_of, b20, b30, IsB};
ghost use Rattle.standins.specs.Series.{sine_of, cosine_of, exp_of, atan2_of};

#[unsafe(no_mangle)]
pub extern "C" fn relaxed_ik_sqrt(x: f64) -> f64
    ensures same { result ≡ root_of x }
    ensures nearest { IsRoot x result }
{
    root::sqrt(x)
}

#[unsafe(no_mangle)]
pub extern "C" fn relaxed_ik_sin(a: f64) -> f64
    ensures { result ≡ sine_of a }
{
    standins::series::sin(a)
}

#[unsafe(no_mangle)]
pub extern "C" fn relaxed_ik_cos(a: f64) -> f64
    ensures { result ≡ cosine_of a }
{
    standins::series::cos(a)
}

#[unsafe(no_mangle)]
pub extern "C" fn relaxed_ik_exp(y: f64) -> f64
    ensures { result ≡ exp_of y }
{
    standins::series::exp(y)
}

#[unsafe(no_mangle)]
pub extern "C" fn relaxed_ik_atan2(n: f64, w: f64) -> f64
    ensures { result ≡ atan2_of n w }
{
    standins::series::atan2(n, w)
}

#[unsafe(no_mangle)]
pub extern "C" fn relaxed_ik_power20(a: f64) -> f64
    ensures { result ≡ power20_of a }
{
    standins::power::power20(a)
}

#[unsafe(no_mangle)]
pub extern "C" fn relaxed_ik_power30(a: f64) -> f64
    ensures { result ≡ power30_of a }
{
    standins::power::power30(a)
}

#[unsafe(no_mangle)]
pub extern "C" fn relaxed_ik_b20() -> f64
    ensures same { result ≡ b20 }
    ensures nearest { IsB 20 result }
{
    standins::power::b20()
}

#[unsafe(no_mangle)]
pub extern "C" fn relaxed_ik_b30() -> f64
    ensures same { result ≡ b30 }
    ensures nearest { IsB 30 result }
{
    standins::power::b30()
}

#[unsafe(no_mangle)]
pub extern "C" fn relaxed_ik_cut(x: f64) -> f64
    ensures { result ≡ cut_of x }
{
    standins::cut::cut(x)
}

#[unsafe(no_mangle)]
pub extern "C" fn relaxed_ik_abs(x: f64) -> f64
    ensures { result ≡ abs_of x }
{
    standins::cut::abs(x)
}
