// vars.rs: the current joint block and the three before it.
ghost use Rattle.std.specs.Prelude.{◌≡◌, ◌≤◌, length};
ghost use Rattle.groove.specs.Vars.{padded, reset_of, update_of};

#[derive(Clone, Copy)]
pub struct History {
    pub joints: usize,
    pub xopt: [f64; 16],
    pub prev_state: [f64; 16],
    pub prev_state2: [f64; 16],
    pub prev_state3: [f64; 16],
}

// A block as an array, zeros behind it.
pub fn padded16(x: &[f64]) -> [f64; 16]
    requires { length x.now ≤ 16 }
    ensures { result ≡ padded x.now }
{
    let mut out = [0.0; 16];
    lists::copy(x, &mut out);
    out
}

impl History {
    pub fn reset(self, init_state: [f64; 16], joints: usize) -> History
        ensures { result ≡ reset_of init_state joints }
    {
        History {
            joints,
            xopt: init_state,
            prev_state: init_state,
            prev_state2: init_state,
            prev_state3: init_state,
        }
    }

    pub fn update(self, xopt: [f64; 16]) -> History
        ensures { result ≡ update_of self xopt }
    {
        // Kept: the check takes an array that a literal stores only from a variable.
        let current = self.xopt;
        let before = self.prev_state;
        let before2 = self.prev_state2;
        History {
            joints: self.joints,
            xopt,
            prev_state: current,
            prev_state2: before,
            prev_state3: before2,
        }
    }
}
