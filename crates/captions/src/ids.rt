// A line of ids in decimal, parted by spaces.
use crate::tell::Reason;

// An id that is being read, and where it begins. Of a value above the largest id the next byte, or the line's end, is refused.
#[derive(Clone, Copy)]
struct Begun {
    from: usize,
    value: u64,
}

// Puts the id at the end of the `count` that stand there.
fn put(ids: &mut [u32], count: usize, begun: Begun) -> Result<usize, Reason> {
    let refused = Reason::NoIds { place: begun.from };
    let Ok(id) = u32::try_from(begun.value) else {
        return Err(refused);
    };
    if ids.len() <= count {
        return Err(refused);
    }
    ids[count] = id;
    Ok(count + 1)
}

fn with_digit(begun: Option<Begun>, place: usize, digit: u8) -> Result<Begun, Reason> {
    let Some(Begun { from, value }) = begun else {
        return Ok(Begun {
            from: place,
            value: u64::from(digit),
        });
    };
    if value > u64::from(u32::MAX) {
        return Err(Reason::NoIds { place: from });
    }
    Ok(Begun {
        from,
        value: value * 10 + u64::from(digit),
    })
}

// Puts the ids into `ids`, and answers how many there are. A line is refused from the first byte on that is neither a digit nor
// white space, or from the first id on that is above 4,294,967,295 or that there is no room for.
pub(crate) fn parse(text: &[u8], ids: &mut [u32]) -> Result<usize, Reason> {
    let mut count = 0;
    let mut begun: Option<Begun> = None;
    for (place, byte) in text.iter().enumerate() {
        match *byte {
            b' ' | b'\t' | b'\r' => {
                if let Some(whole) = begun {
                    count = put(ids, count, whole)?;
                }
                begun = None;
            }
            digit @ b'0'..=b'9' => begun = Some(with_digit(begun, place, digit - b'0')?),
            _ => return Err(Reason::NoIds { place }),
        }
    }
    match begun {
        Some(last) => put(ids, count, last),
        None => Ok(count),
    }
}
