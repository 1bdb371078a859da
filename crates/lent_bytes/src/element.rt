// What a lent list is made of: u16s or floats, each as its bytes, the lowest first.
ghost use Rattle.std.specs.Prelude.{◌≡◌, ℕ, ◌*◌, ◌≤◌, ◌<◌, List, length, refl};
ghost use Rattle.std.proofs.Common.{rules};
ghost use Rattle.std.specs.Float.{binary64};
ghost use Rattle.std.specs.Float.Ieee.{of_bits, to_bits};
ghost use Rattle.lent_bytes.specs.Bytes.{pair_at, word_at};
ghost use Rattle.lent_bytes.specs.Lent.{elements_in, numbers_in, floats_in, elements-numbers, elements-floats, pair_bytes, word_bytes, bytes_of_each, bytes_of_numbers, bytes_of, each-number, each-float};

// A type whose values take N bytes each.
pub trait Element<const N: usize>: Copy + Default {
    ghost read: { List ℕ → Self };

    ghost bytes: { Self → List ℕ };

    // what is taken of a byte list where there is room for so many, and a list as bytes
    ghost taken: { ℕ → List ℕ → List Self };

    ghost laid: { List Self → List ℕ };

    fn from_bytes(le: &[u8; N]) -> Self
        ensures { result ≡ read le.now };

    fn to_bytes(self) -> [u8; N]
        ensures { result ≡ bytes self };

    ghost few: { (0 < N) × (N ≤ 8) };

    ghost wide: { (x : Self) → length (bytes x) ≡ N };

    ghost takes: { (most : ℕ) (b : List ℕ) → elements_in read N most b ≡ taken most b };

    ghost lays: { (xs : List Self) → bytes_of_each bytes xs ≡ laid xs };
}

impl Element<2> for u16 {
    ghost read = { λ b. pair_at b 0 };

    ghost bytes = { pair_bytes };

    ghost taken = { numbers_in };

    ghost laid = { bytes_of_numbers };

    ghost few = { Prim.search rules };

    ghost wide = { λ x. refl };

    ghost takes = { elements-numbers };

    ghost lays = { each-number };

    fn from_bytes(le: &[u8; 2]) -> u16 {
        u16::from_le_bytes(*le)
    }

    fn to_bytes(self) -> [u8; 2] {
        self.to_le_bytes()
    }
}

// Every NaN's pattern is read as the one NaN, and a NaN has one pattern.
impl Element<8> for f64 {
    ghost read = { λ b. of_bits binary64 (word_at b 0) };

    ghost bytes = { λ x. word_bytes (to_bits binary64 x) };

    ghost taken = { floats_in };

    ghost laid = { bytes_of };

    ghost few = { Prim.search rules };

    ghost wide = { λ x. refl };

    ghost takes = { elements-floats };

    ghost lays = { each-float };

    fn from_bytes(le: &[u8; 8]) -> f64 {
        float_of(u64::from_le_bytes(*le))
    }

    fn to_bytes(self) -> [u8; 8] {
        pattern(self).to_le_bytes()
    }
}

// The float of a bit pattern, a NaN for every NaN's.
fn float_of(n: u64) -> f64
    ensures { result ≡ of_bits binary64 n }
{
    if n % 9223372036854775808 > 9218868437227405312 {
        return 0.0 / 0.0;
    }
    f64::from_bits(n)
}

// A float's bits, those of one NaN for each.
fn pattern(x: f64) -> u64
    ensures { result ≡ to_bits binary64 x }
{
    if x != x {
        return 9221120237041090560;
    }
    f64::to_bits(x)
}
