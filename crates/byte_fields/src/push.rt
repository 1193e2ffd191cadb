//! Adds fields to the end of bytes.

ghost use Rattle.std.specs.Prelude.{◌≡◌, ◌++◌, ◌∷◌, [], OnOk, is_some, unwrap_or};
ghost use Rattle.std.specs.Int.{w16, w32, to_le_bytes};
ghost use Rattle.byte_fields.specs.Fields.{flag_byte};

use board_base::NoMemory;

/// Adds a byte.
pub fn push_byte(into: &mut Vec<u8>, byte: u8) -> Result<(), NoMemory>
    ensures added { OnOk result (into.new.items ≡ into.old.items ++ byte ∷ []) }
{
    into.push(byte)?;
    Ok(())
}

/// Adds a flag or a level, as 0 or 1.
pub fn push_flag(into: &mut Vec<u8>, flag: bool) -> Result<(), NoMemory>
    ensures added { OnOk result (into.new.items ≡ into.old.items ++ flag_byte flag ∷ []) }
{
    into.push(u8::from(flag))?;
    Ok(())
}

/// Adds a number of 2 bytes.
pub fn push_half(into: &mut Vec<u8>, value: u16) -> Result<(), NoMemory>
    ensures added { OnOk result (into.new.items ≡ into.old.items ++ to_le_bytes w16 value) }
{
    into.extend_from_slice(&value.to_le_bytes())?;
    Ok(())
}

/// Adds a number of 4 bytes.
pub fn push_word(into: &mut Vec<u8>, value: u32) -> Result<(), NoMemory>
    ensures added { OnOk result (into.new.items ≡ into.old.items ++ to_le_bytes w32 value) }
{
    into.extend_from_slice(&value.to_le_bytes())?;
    Ok(())
}

/// Adds whether a byte is there, and then the byte, 0 where it is absent.
pub fn push_optional_byte(into: &mut Vec<u8>, byte: Option<u8>) -> Result<(), NoMemory>
    ensures added { OnOk result (into.new.items ≡ into.old.items ++ flag_byte (is_some byte) ∷ unwrap_or byte 0 ∷ []) }
{
    into.extend_from_slice(&[u8::from(byte.is_some()), byte.unwrap_or(0)])?;
    Ok(())
}

/// Adds whether a number of 4 bytes is there, and then the number, 0 where it is absent.
pub fn push_optional_word(into: &mut Vec<u8>, value: Option<u32>) -> Result<(), NoMemory>
    ensures added { OnOk result
        (into.new.items ≡ into.old.items ++ flag_byte (is_some value) ∷ to_le_bytes w32 (unwrap_or value 0)) }
{
    into.push(u8::from(value.is_some()))?;
    push_word(into, value.unwrap_or(0))
}

/// Adds bytes.
pub fn push_bytes(into: &mut Vec<u8>, bytes: &[u8]) -> Result<(), NoMemory>
    ensures added { OnOk result (into.new.items ≡ into.old.items ++ bytes.now) }
{
    into.extend_from_slice(bytes)?;
    Ok(())
}
