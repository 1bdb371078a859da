// What is kept between calls.
ghost use Rattle.std.specs.Prelude.{◌≡◌, IfOk};
ghost use Rattle.refusals.specs.Number.{number_of};
ghost use Rattle.state_calls.specs.State.{empty_party, empty_state, arms_number, IsInUse};

use groove::vars::History;
use refusals::refusal::Refusal;
use refusals::shape;
use sheet::chain;

// The sheet, each list with zeros behind it; no chains: no arms. A chain's tool is eight floats, 1 where it has one, then displacement and offset; loading leaves none.
#[derive(Clone, Copy)]
pub struct Arms {
    pub sizes: [u16; 5],
    pub codes: [u16; 64],
    pub floats: [f64; 448],
    pub limits: [f64; 32],
    pub tools: [f64; 32],
}

// A weight for each kind of objective, and whether they are loaded; until then the built-in ones serve.
// Kept: a flag beside what it tells of, here and in `Party`: every State is answered, also one whose flag is off and whose floats are no zeros; an Option has none such.
#[derive(Clone, Copy)]
pub struct Weights {
    pub loaded: bool,
    pub list: [f64; 8],
}

// What one party sets over the arms: its goals, its history, and the end poses at its last reset.
#[derive(Clone, Copy)]
pub struct Party {
    pub has_goals: bool,
    pub goals: [f64; 52],
    pub started: bool,
    pub history: History,
    pub start_poses: [f64; 28],
}

#[derive(Clone, Copy)]
pub struct State {
    pub arms: Arms,
    pub weights: Weights,
    pub party: Party,
}

// The part of a stored sheet that is in use.
#[derive(Clone, Copy)]
pub struct InUse<'a> {
    pub counts: &'a [u16],
    pub codes: &'a [u16],
    pub floats: &'a [f64],
}

// No goals, no start, no history.
pub fn empty_party() -> Party
    ensures { result ≡ empty_party }
{
    Party {
        has_goals: false,
        goals: [0.0; 52],
        started: false,
        history: History {
            joints: 0,
            xopt: [0.0; 16],
            prev_state: [0.0; 16],
            prev_state2: [0.0; 16],
            prev_state3: [0.0; 16],
        },
        start_poses: [0.0; 28],
    }
}

// Nothing is loaded.
pub fn empty() -> State
    ensures { result ≡ empty_state }
{
    State {
        arms: Arms {
            sizes: [0; 5],
            codes: [0; 64],
            floats: [0.0; 448],
            limits: [0.0; 32],
            tools: [0.0; 32],
        },
        weights: Weights {
            loaded: false,
            list: [0.0; 8],
        },
        party: empty_party(),
    }
}

// The part of the stored lists that is in use, where they have lengths and codes that loading takes.
pub(crate) fn in_use<'a>(arms: &'a Arms) -> Result<InUse<'a>, Refusal>
    ensures number { number_of result ≡ arms_number arms.now.sizes arms.now.codes }
    ensures sheet { IfOk result (IsInUse arms.now) }
{
    let chains = arms.sizes[0] as usize;
    if chains > 4 {
        return Err(Refusal::NoArms);
    }
    let counts = &arms.sizes[1..chains + 1];
    let links = chain::total_links(counts);
    if links > 64 {
        return Err(Refusal::NoArms);
    }
    let codes = &arms.codes[..links];
    let Ok(()) = shape::shape_refusal(&arms.sizes[..chains + 1], codes, 7 * links) else {
        return Err(Refusal::NoArms);
    };
    Ok(InUse {
        counts,
        codes,
        floats: &arms.floats[..7 * links],
    })
}
