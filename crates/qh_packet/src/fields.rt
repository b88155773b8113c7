ghost use Rattle.std.specs.Prelude.{◌≡◌, ◌<◌, ◌^◌, ◌++◌, length, OnOk, OnErr};
ghost use Rattle.qh_spec.specs.Varint.{varint};

use qh_base::{Memory, VarInt, put_varint};

/// Appends bytes behind their length, a number in its shortest form, or nothing.
pub(crate) fn put_counted(out: &mut Vec<u8>, bytes: &[u8]) -> Result<(), Memory>
    requires { length bytes.now < 2 ^ 14 }
    ensures ok { OnOk result (out.new.items ≡ out.old.items ++ (varint (length bytes.now) ++ bytes.now)) }
    ensures err { OnErr result (out.new.items ≡ out.old.items) }
{
    let start = out.len();
    put_varint(out, VarInt::from_u32(bytes.len() as u32))?;
    if out.extend_from_slice(bytes).is_err() {
        out.truncate(start);
        return Err(Memory);
    }
    Ok(())
}
