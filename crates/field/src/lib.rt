// Fields: numbers of 2 and of 4 bytes, lowest byte first, read at a place of a lent slice and put at a place of a lent buffer. Contracts
// cite `specs/Number`, `specs/Field` and `specs/Handover`.
#![tactic(auto)]

ghost use Rattle.std.specs.Prelude.{◌≡◌, ◌+◌, ◌≤◌, ℕ, length, refl};
ghost use Rattle.field.specs.Number.{Bytes, bytes_of, number_at};
ghost use Rattle.field.specs.Field.{front_by, field_by};
ghost use Rattle.field.specs.Handover.{Put};

// A kind of number that fields hold: how many bytes it takes, the value that a number is, and the number that a value is.
pub trait Number: Copy {
    const SIZE: usize;

    ghost SIZE: { ℕ };

    ghost of: { ℕ → Self };

    ghost number: { Self → ℕ };

    // The number at the front of a slice.
    fn first(s: &[u8]) -> Option<Self>
        ensures { result ≡ front_by SIZE of s.now };

    // Fills a field with the number's bytes.
    fn fill(self, field: &mut [u8])
        requires { length field.old ≡ SIZE }
        ensures { field.new ≡ bytes_of SIZE (number self) };

    ghost back: { (v : Self) → of (number v) ≡ v };
}

impl Number for u16 {
    const SIZE: usize = 2;

    ghost SIZE = { 2 };

    ghost of = { λ n. n };

    ghost number = { λ v. v };

    #[tactic(auto, unfolding(crate::specs::Number::number_at, crate::specs::Field::front_by))]
    fn first(s: &[u8]) -> Option<u16> {
        Some(u16::from_le_bytes(*s.first_chunk()?))
    }

    #[tactic(auto, unfolding(crate::specs::Number::bytes_of))]
    fn fill(self, field: &mut [u8]) {
        field.copy_from_slice(&self.to_le_bytes());
    }

    ghost back = { λ v. refl };
}

impl Number for u32 {
    const SIZE: usize = 4;

    ghost SIZE = { 4 };

    ghost of = { λ n. n };

    ghost number = { λ v. v };

    #[tactic(auto, unfolding(crate::specs::Number::number_at, crate::specs::Field::front_by))]
    fn first(s: &[u8]) -> Option<u32> {
        Some(u32::from_le_bytes(*s.first_chunk()?))
    }

    #[tactic(auto, unfolding(crate::specs::Number::bytes_of))]
    fn fill(self, field: &mut [u8]) {
        field.copy_from_slice(&self.to_le_bytes());
    }

    ghost back = { λ v. refl };
}

// Every lent slice of bytes is a list of bytes: each of its entries is below 256.
pub fn all_bytes(s: &[u8])
    ensures { Bytes s.now }
{}

// The number at a place, and the place after it.
pub fn read<N: Number>(s: &[u8], at: usize) -> Option<(N, usize)>
    ensures { result ≡ field_by N.SIZE (λ s at. N.of (number_at N.SIZE s at)) s.now at }
{
    let number = N::first(s.get(at..)?)?;
    Some((number, at + N::SIZE))
}

// Stores a number at a place, and nothing else; returns the place after it.
pub fn put<N: Number>(out: &mut [u8], at: usize, v: N) -> usize
    requires { at + N.SIZE ≤ length out.old }
    ensures { Put out.old at N.SIZE (bytes_of N.SIZE (N.number v)) result out.new }
{
    let next = at + N::SIZE;
    v.fill(&mut out[at..next]);
    next
}
