// The run file's reader, and what each of its records asks.
#![tactic(auto)]

ghost use Rattle.std.specs.Prelude.{◌≡◌, IfErr};
ghost use Rattle.records.specs.Files.{records_part, records_length};
ghost use Rattle.records.specs.Answers.{bytes_of};
ghost use Rattle.records.specs.Requests.{asked_or_bad, request_of, write_asked, setpoint_asked, event_asked, ticks_asked, arm_asked, asked_by, asked_of};

use refusal::Refusal;

// What a record asks of the board.
#[derive(Clone, Copy, Debug, PartialEq, Eq)]
pub enum Request {
    Write {
        address: u32,
        value: u16,
    },
    Read {
        address: u32,
    },
    Setpoint {
        number: u32,
        user: u32,
        buffer: u32,
        index: u32,
        word: u32,
    },
    Event {
        code: u8,
    },
    Ticks {
        count: u32,
    },
    Reply {
        number: u32,
        frame: u64,
    },
    User {
        user: u32,
    },
    Arm {
        number: u32,
    },
    Disarm {
        number: u32,
    },
}

// The length in bytes of what `records` gives, or the refusal.
#[tactic(auto, unfolding(crate::specs::Files::distance, crate::specs::Files::count, crate::specs::Files::records_length, crate::specs::Files::file_refusal))]
pub fn records_length(file: &[u8]) -> Result<usize, Refusal>
    ensures { bytes_of result ≡ records_length file.now }
{
    let size = file.len();
    if !(8..=65536).contains(&size) {
        return Err(Refusal::BadTrailer);
    }
    let distance = u64::from(little_endian::u32_at(file, (size - 8) as u32));
    let count = u64::from(little_endian::u32_at(file, (size - 4) as u32));
    if distance != 8 * count + 8 || (size as u64) < distance {
        return Err(Refusal::BadTrailer);
    }
    Ok(8 * count as usize)
}

// The records: the part of the file between preamble and trailer, empty where refused.
pub fn records(file: &[u8]) -> &[u8]
    ensures { result.now ≡ records_part file.now }
{
    match records_length(file) {
        Ok(length) => {
            let end = file.len() - 8;
            let start = end - length;
            &file[start..end]
        }
        Err(_) => &file[..0],
    }
}

fn write_request(a: u16, b: u32) -> Option<Request>
    ensures { asked_or_bad result ≡ write_asked a b }
{
    let value = u16::try_from(b).ok()?;
    Some(Request::Write {
        address: u32::from(a),
        value,
    })
}

fn setpoint_request(number: u8, a: u16, b: u32) -> Option<Request>
    ensures { asked_or_bad result ≡ setpoint_asked number a b }
{
    let place = u32::from(u8::try_from(a).ok()?);
    Some(Request::Setpoint {
        number: u32::from(number),
        user: place / 32 + 1,
        buffer: place / 16 % 2 + 1,
        index: place % 16,
        word: b,
    })
}

fn event_request(b: u32) -> Option<Request>
    ensures { asked_or_bad result ≡ event_asked b }
{
    let code = u8::try_from(b).ok()?;
    Some(Request::Event { code })
}

fn ticks_request(b: u32) -> Option<Request>
    ensures { asked_or_bad result ≡ ticks_asked b }
{
    if (1..=10000).contains(&b) {
        Some(Request::Ticks { count: b })
    } else {
        None
    }
}

fn arm_request(number: u8, b: u32) -> Option<Request>
    ensures { asked_or_bad result ≡ arm_asked number b }
{
    let number = u32::from(number);
    match b {
        1 => Some(Request::Arm { number }),
        0 => Some(Request::Disarm { number }),
        _ => None,
    }
}

// What a record asks, by its kind, channel, a and b; nothing where it is bad.
#[tactic(auto, unfolding(crate::specs::Requests::asked_by))]
fn decode_fields(kind: u8, number: u8, a: u16, b: u32) -> Option<Request>
    ensures { asked_or_bad result ≡ asked_by kind number a b }
{
    match kind {
        1 => write_request(a, b),
        2 => Some(Request::Read {
            address: u32::from(a),
        }),
        3 => setpoint_request(number, a, b),
        4 => event_request(b),
        5 => ticks_request(b),
        6 => Some(Request::Reply {
            number: u32::from(number),
            frame: u64::from(a) * 4294967296 + u64::from(b),
        }),
        7 => Some(Request::User { user: b }),
        8 => arm_request(number, b),
        _ => None,
    }
}

// What a record of 8 bytes asks.
#[tactic(auto, unfolding(crate::specs::Requests::asked_of))]
pub fn decode(bytes: &[u8]) -> Result<Request, Refusal>
    ensures request { request_of result ≡ asked_of bytes.now }
    ensures reason { IfErr result (λ reason. reason ≡ Refusal.BadRecord) }
{
    let kind = little_endian::byte_at(bytes, 0);
    let number = little_endian::byte_at(bytes, 1);
    let a = little_endian::u16_at(bytes, 2);
    let b = little_endian::u32_at(bytes, 4);
    decode_fields(kind, number, a, b).ok_or(Refusal::BadRecord)
}
