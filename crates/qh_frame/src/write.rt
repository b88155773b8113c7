ghost use Rattle.std.specs.Prelude.{◌≡◌, ℕ, ◌<◌, ◌≤◌, ◌+◌, ◌^◌, ◌++◌, List, [], ◌∷◌, length, replicate, Some, OnOk, OnErr};
ghost use Rattle.std.specs.List.{AllByRecursion};
ghost use Rattle.qh_frame.specs.FrameBytes.{numbers_bytes, IsPut};
ghost use Rattle.qh_frame.specs.Plain.{frame};
ghost use Rattle.qh_spec.specs.QuicFrames.{Number, Counted, Num, Text, shape_of};

use qh_base::{Memory, VarInt, put_varint};

// Appends numbers, each in its shortest form, or nothing.
pub(crate) fn put_numbers(out: &mut Vec<u8>, numbers: &[u64]) -> Result<(), Memory>
    requires { AllByRecursion (λ n. n < 2 ^ 62) numbers.now }
    ensures ok { OnOk result (out.new.items ≡ out.old.items ++ numbers_bytes numbers.now) }
    ensures err { OnErr result (out.new.items ≡ out.old.items) }
{
    let start = out.len();
    for n in numbers {
        if put_varint(out, number(*n)).is_err() {
            out.truncate(start);
            return Err(Memory);
        }
    }
    Ok(())
}

// Appends numbers and bytes behind them, or nothing.
pub(crate) fn put_text(out: &mut Vec<u8>, numbers: &[u64], text: &[u8]) -> Result<(), Memory>
    requires { AllByRecursion (λ n. n < 2 ^ 62) numbers.now }
    ensures ok { OnOk result (out.new.items ≡ out.old.items ++ (numbers_bytes numbers.now ++ text.now)) }
    ensures err { OnErr result (out.new.items ≡ out.old.items) }
{
    let start = out.len();
    put_numbers(out, numbers)?;
    if out.extend_from_slice(text).is_err() {
        out.truncate(start);
        return Err(Memory);
    }
    Ok(())
}

// Appends so many zeros, or nothing.
pub(crate) fn put_zeros(out: &mut Vec<u8>, count: usize) -> Result<(), Memory>
    ensures ok { OnOk result (out.new.items ≡ out.old.items ++ replicate count 0) }
    ensures err { OnErr result (out.new.items ≡ out.old.items) }
{
    let start = out.len();
    for _ in 0..count {
        if out.push(0).is_err() {
            out.truncate(start);
            return Err(Memory);
        }
    }
    Ok(())
}

// A number that is below 2^62.
pub(crate) fn number(n: u64) -> VarInt
    requires { n < 2 ^ 62 }
    ensures { result ≡ n }
{
    VarInt::from_u64(n).unwrap()
}

// Appends a frame of one number, or nothing.
pub(crate) fn put_one(out: &mut Vec<u8>, kind: u64, a: VarInt) -> Result<(), Memory>
    requires small { kind < 64 }
    requires shape { shape_of kind ≡ Some (Number ∷ []) }
    ensures ok { OnOk result (IsPut out.old.items out.new.items (frame kind (Num a ∷ [])) 9) }
    ensures err { OnErr result (out.new.items ≡ out.old.items) }
{
    let a = a.into_inner();
    put_numbers(out, &[kind, a])
}

// Appends a frame of two numbers, or nothing.
pub(crate) fn put_two(out: &mut Vec<u8>, kind: u64, a: VarInt, b: VarInt) -> Result<(), Memory>
    requires small { kind < 64 }
    requires shape { shape_of kind ≡ Some (Number ∷ Number ∷ []) }
    ensures ok { OnOk result (IsPut out.old.items out.new.items (frame kind (Num a ∷ Num b ∷ [])) 17) }
    ensures err { OnErr result (out.new.items ≡ out.old.items) }
{
    let a = a.into_inner();
    let b = b.into_inner();
    put_numbers(out, &[kind, a, b])
}

// Appends a frame of three numbers, or nothing.
pub(crate) fn put_three(
    out: &mut Vec<u8>,
    kind: u64,
    a: VarInt,
    b: VarInt,
    c: VarInt,
) -> Result<(), Memory>
    requires small { kind < 64 }
    requires shape { shape_of kind ≡ Some (Number ∷ Number ∷ Number ∷ []) }
    ensures ok { OnOk result (IsPut out.old.items out.new.items (frame kind (Num a ∷ Num b ∷ Num c ∷ [])) 25) }
    ensures err { OnErr result (out.new.items ≡ out.old.items) }
{
    let a = a.into_inner();
    let b = b.into_inner();
    let c = c.into_inner();
    put_numbers(out, &[kind, a, b, c])
}

// Appends a frame of bytes behind their length, or nothing.
pub(crate) fn put_counted(out: &mut Vec<u8>, kind: u64, text: &[u8]) -> Result<(), Memory>
    requires small { kind < 64 }
    requires shape { shape_of kind ≡ Some (Counted ∷ []) }
    requires short { length text.now < 2 ^ 62 }
    ensures ok { OnOk result (IsPut out.old.items out.new.items (frame kind (Text text.now ∷ [])) (9 + length text.now)) }
    ensures err { OnErr result (out.new.items ≡ out.old.items) }
{
    put_text(out, &[kind, text.len() as u64], text)
}

// The same behind a number.
pub(crate) fn put_one_counted(
    out: &mut Vec<u8>,
    kind: u64,
    a: VarInt,
    text: &[u8],
) -> Result<(), Memory>
    requires small { kind < 64 }
    requires shape { shape_of kind ≡ Some (Number ∷ Counted ∷ []) }
    requires short { length text.now < 2 ^ 62 }
    ensures ok { OnOk result (IsPut out.old.items out.new.items (frame kind (Num a ∷ Text text.now ∷ [])) (17 + length text.now)) }
    ensures err { OnErr result (out.new.items ≡ out.old.items) }
{
    let a = a.into_inner();
    put_text(out, &[kind, a, text.len() as u64], text)
}

// The same behind two numbers.
pub(crate) fn put_two_counted(
    out: &mut Vec<u8>,
    kind: u64,
    a: VarInt,
    b: VarInt,
    text: &[u8],
) -> Result<(), Memory>
    requires small { kind < 64 }
    requires shape { shape_of kind ≡ Some (Number ∷ Number ∷ Counted ∷ []) }
    requires short { length text.now < 2 ^ 62 }
    ensures ok { OnOk result (IsPut out.old.items out.new.items (frame kind (Num a ∷ Num b ∷ Text text.now ∷ [])) (25 + length text.now)) }
    ensures err { OnErr result (out.new.items ≡ out.old.items) }
{
    let a = a.into_inner();
    let b = b.into_inner();
    put_text(out, &[kind, a, b, text.len() as u64], text)
}
