ghost use Rattle.std.specs.Prelude.{◌≡◌, true, false, List, IfOk, OnErr};
ghost use Rattle.std.specs.Option.{option_map};
ghost use Rattle.qh_hello.specs.Parts.{HasDistinctFront};
ghost use Rattle.qh_spec.specs.Hello.{Hello, Parameter, AreParameters, value_of};
ghost use Rattle.qh_spec.specs.HelloFaults.{HasDistinctIds};

use crate::reading::next_parameter;
use qh_base::Memory;
use std::alloc::Global;
use std::collections::BTreeSet;

/// Whether the bytes are parameters, and nothing else (RFC 9000, section 18).
pub(crate) fn are_parameters(bytes: &[u8]) -> bool
    ensures yes { result ≡ true → (ps : List Parameter) × AreParameters bytes.now ps }
    ensures no_others { result ≡ false → (ps : List Parameter) → AreParameters bytes.now ps → ⊥ }
{
    let mut rest = bytes;
    while let Some(front) = next_parameter(rest) {
        rest = front.rest;
    }
    rest.is_empty()
}

/// The value of the first parameter with this id, if one has it.
pub(crate) fn value_of(bytes: &[u8], id: u64) -> Option<&[u8]>
    ensures { (ps : List Parameter) → AreParameters bytes.now ps → option_map (λ v. v.now) result ≡ value_of id ps }
{
    let mut rest = bytes;
    while let Some(front) = next_parameter(rest) {
        if front.id == id {
            return Some(front.value);
        }
        rest = front.rest;
    }
    None
}

/// Whether no id is repeated, unknown ids included (RFC 9000, section 7.4). It takes the time of n searches in a tree.
pub(crate) fn has_distinct_ids(alloc: Global, bytes: &[u8]) -> Result<bool, Memory>
    ensures yes { IfOk result (λ b. b ≡ true → (h : Hello) → AreParameters bytes.now h.parameters → HasDistinctIds h) }
    ensures twice { IfOk result (λ b. b ≡ false → (h : Hello) → AreParameters bytes.now h.parameters → HasDistinctIds h → ⊥) }
    ensures memory { OnErr result ((h : Hello) → AreParameters bytes.now h.parameters → HasDistinctFront h.parameters) }
{
    let mut seen = BTreeSet::new(alloc);
    let mut rest = bytes;
    while let Some(front) = next_parameter(rest) {
        match seen.insert(front.id) {
            Ok(true) => {}
            Ok(false) => return Ok(false),
            Err(_) => return Err(Memory),
        }
        rest = front.rest;
    }
    Ok(true)
}
