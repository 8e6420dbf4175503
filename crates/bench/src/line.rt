// A line of `stdin`: words in quotes, and fields, parted by blanks.

// How many fields a line may have.
pub(crate) const FIELDS: usize = 32;

// What a field holds with one byte more: a number goes on, a capital letter stands for itself, and any other byte says nothing.
fn grown(value: u32, byte: u8) -> u32 {
    match byte {
        b'0'..=b'9' => value.wrapping_mul(10).wrapping_add(u32::from(byte - b'0')),
        b'A'..=b'Z' => u32::from(byte),
        _ => value,
    }
}

// The fields of the first line of a text, 0 where there are no more; what follows the last field goes on with it.
pub(crate) fn fields(text: &[u8]) -> [u32; FIELDS] {
    let mut fields = [0; FIELDS];
    let mut field = 0;
    for byte in text {
        match *byte {
            b'\n' => return fields,
            b' ' if field < FIELDS - 1 => field += 1,
            byte => {
                if let Some(value) = fields.get_mut(field) {
                    *value = grown(*value, byte);
                }
            }
        }
    }
    fields
}

// What a field of 16 bits holds, and one of a letter.
pub(crate) fn short(field: u32) -> u16 {
    (field % 65_536) as u16
}

pub(crate) fn letter(field: u32) -> u8 {
    (field % 256) as u8
}

// The words of a case, up to the next quote, and what follows them; none of a text that does not begin with a quote.
pub(crate) fn case_of(text: &[u8]) -> Option<(&[u8], &[u8])> {
    let case = text.strip_prefix(b"\"")?;
    match case.iter().position(|byte| *byte == b'"') {
        Some(end) => Some((&case[..end], &case[end + 1..])),
        None => Some((&[], case)),
    }
}

// The fields of the first line that begins with a letter, its newline counted, of the first line where there is none.
pub(crate) fn fields_of(text: &[u8], letter: u8) -> [u32; FIELDS] {
    let mut lines = text.split_inclusive(|byte| *byte == b'\n');
    let line = lines.find(|line| line.first() == Some(&letter));
    fields(line.unwrap_or(text))
}
