ghost use Rattle.std.specs.Prelude.{◌≡◌, Some, None, if◌then◌else◌};
ghost use Rattle.std.specs.Str.Parse.{digits_value};
ghost use Rattle.mr_defs.specs.Folded.{limit};
ghost use Rattle.mr_items.specs.Number.{number_of, is_numeral_up_to};

// The number of decimal digits and nothing else, where it is at most 9223372036854775807.
fn natural(digits: &[u8]) -> Option<u64>
    ensures { result ≡ (if is_numeral_up_to limit digits.now then Some (digits_value 10 digits.now) else None) }
{
    if digits.is_empty() {
        return None;
    }
    let mut value: u64 = 0;
    for byte in digits {
        if !byte.is_ascii_digit() {
            return None;
        }
        if value > 922337203685477580 {
            return None;
        }
        value = value * 10 + (*byte - b'0') as u64;
    }
    if value > 9223372036854775807 {
        return None;
    }
    Some(value)
}

/// Reads an optional `-` and one or more ASCII digits, with leading zeros or without. None exactly where the bytes have another form, or
/// the magnitude passes 9223372036854775807.
pub fn read_number(bytes: &[u8]) -> Option<i64>
    ensures { result ≡ number_of bytes.now }
{
    if !bytes.is_empty() && bytes[0] == b'-' {
        let value = natural(&bytes[1..])?;
        return Some(0 - (value as i64));
    }
    let value = natural(bytes)?;
    Some(value as i64)
}
