// How each kind of field stands on a sheet, once for reading and writing.
ghost use Rattle.std.specs.Prelude.{◌≡◌, ℕ, ◌+◌, ◌<◌, ◌≤◌, true, List, [], ◌∷◌, ◌++◌, length, is_some, IfSome, is_ok, if◌then◌else◌, vec_len, vec_capacity, MatchOption, FitsSigned};
ghost use Rattle.std.specs.Int.{w32};
ghost use Rattle.sheet.specs.Bytes.{stands, field, number_bytes, input_bytes};
ghost use Rattle.std.proofs.Common.{rules};

use crate::record::Input;
use signal::status::Status;
use std::alloc::AllocError;

pub trait Field: Copy {
    ghost wire: { Self → List ℕ };

    // How many bytes the field takes.
    const WIDTH: usize;

    ghost WIDTH: { ℕ };

    // what holds of each such field that a program holds
    ghost fits: { Self → Type 0 };

    // The field at the front of `bytes` and what follows it; none where they are too few.
    fn take(bytes: &[u8]) -> Option<(Self, &[u8])>
        ensures { MatchOption result (length bytes.now < WIDTH) (λ x. (bytes.now ≡ wire x.0 ++ x.1.now) × fits x.0) };

    // Writes the field behind what `out` holds, or nothing of it where memory is wanting.
    fn put(self, out: &mut Vec<u8>) -> Result<(), AllocError>
        ensures items { out.new.items ≡ (if is_ok result then out.old.items ++ wire self else out.old.items) }
        ensures len { vec_len out.new ≡ (if is_ok result then vec_len out.old + WIDTH else vec_len out.old) }
        ensures capacity { vec_capacity out.old ≤ vec_capacity out.new }
        ensures succeeds { vec_len out.old + WIDTH ≤ vec_capacity out.old → is_ok result ≡ true };

    ghost sized: { (x : Self) → length (wire x) ≡ WIDTH };
}

impl Field for u8 {
    ghost wire = { λ b. b ∷ [] };

    const WIDTH: usize = 1;

    ghost WIDTH = { 1 };

    ghost fits = { λ _. Unit {0} };

    ghost sized = { Prim.search rules };

    fn take(bytes: &[u8]) -> Option<(u8, &[u8])> {
        let [b, rest @ ..] = bytes else {
            return None;
        };
        Some((*b, rest))
    }

    fn put(self, out: &mut Vec<u8>) -> Result<(), AllocError> {
        out.extend_from_slice(&[self])
    }
}

impl Field for i32 {
    ghost wire = { number_bytes };

    const WIDTH: usize = 4;

    ghost WIDTH = { 4 };

    ghost fits = { FitsSigned w32 };

    ghost sized = { Prim.search rules };

    fn take(bytes: &[u8]) -> Option<(i32, &[u8])> {
        let [a, b, c, d, rest @ ..] = bytes else {
            return None;
        };
        Some((i32::from_be_bytes([*a, *b, *c, *d]), rest))
    }

    fn put(self, out: &mut Vec<u8>) -> Result<(), AllocError> {
        out.extend_from_slice(&self.to_be_bytes())
    }
}

impl Field for Input {
    ghost wire = { input_bytes };

    const WIDTH: usize = 5;

    ghost WIDTH = { 5 };

    ghost fits = { λ i. FitsSigned w32 i.value };

    ghost sized = { Prim.search rules };

    fn take(bytes: &[u8]) -> Option<(Input, &[u8])> {
        let (value, rest) = <i32 as Field>::take(bytes)?;
        let (status, rest) = <u8 as Field>::take(rest)?;
        Some((
            Input {
                value,
                status: Status(status),
            },
            rest,
        ))
    }

    fn put(self, out: &mut Vec<u8>) -> Result<(), AllocError> {
        // one step and not two: where memory is wanting, nothing of it is written
        let [a, b, c, d] = self.value.to_be_bytes();
        out.extend_from_slice(&[a, b, c, d, self.status.0])
    }
}

// The field at the front where its bit stands, and what follows it.
// Whether it stands is asked at the call: a bit map and a number of a bit would be a parameter more, and a `requires`.
pub fn take_field<F: Field>(there: bool, bytes: &[u8]) -> Option<(Option<F>, &[u8])>
    ensures { MatchOption result (length bytes.now < (if there then F.WIDTH else 0)) (λ x. (is_some x.0 ≡ there) × (bytes.now ≡ field F.wire x.0 ++ x.1.now) × IfSome x.0 F.fits) }
{
    if !there {
        return Some((None, bytes));
    }
    let (f, rest) = F::take(bytes)?;
    Some((Some(f), rest))
}

// How many bytes a field takes, where there is one.
pub fn field_len<F: Field>(f: Option<F>) -> usize
    ensures length { result ≡ length (field F.wire f) }
    ensures most { result ≤ F.WIDTH }
{
    f.map_or(0, |_| F::WIDTH)
}

// Writes a field where there is one.
pub fn put_field<F: Field>(f: Option<F>, out: &mut Vec<u8>) -> Result<(), AllocError>
    ensures items { out.new.items ≡ (if is_ok result then out.old.items ++ field F.wire f else out.old.items) }
    ensures len { vec_len out.new ≡ (if is_ok result then vec_len out.old + length (field F.wire f) else vec_len out.old) }
    ensures capacity { vec_capacity out.old ≤ vec_capacity out.new }
    ensures succeeds { vec_len out.old + length (field F.wire f) ≤ vec_capacity out.old → is_ok result ≡ true }
{
    // with `map_or` it does not close what its closure writes
    match f {
        Some(x) => x.put(out),
        None => Ok(()),
    }
}
