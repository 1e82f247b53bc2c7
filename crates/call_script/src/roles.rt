// Who makes a record's call, and the rights that an opening gives (tests/CALLS.md, Seats).
ghost use Rattle.std.specs.Prelude.{◌≡◌, ◌<◌};
ghost use Rattle.call_script.specs.Roles.{bit_at, role_of, rights_in, channel_rights, board_rights};

use permissions::{BoardRights, ChannelRights, Rights, Role};

// No `From`: neither type is of this crate.
pub fn role(code: u8) -> Role
    ensures { result ≡ role_of code }
{
    match code {
        1 => Role::Candidate,
        2 => Role::Watcher,
        _ => Role::Examiner,
    }
}

fn bit(byte: u8, place: u8) -> bool
    requires { place < 8 }
    ensures { result ≡ bit_at byte place }
{
    (byte >> place) % 2 == 1
}

// The rights in a byte at a channel, counted from 0.
fn rights_in(byte: u8, channel: u8) -> Rights
    requires { channel < 4 }
    ensures { result ≡ rights_in byte channel }
{
    Rights {
        read: bit(byte, channel),
        write: bit(byte, channel + 4),
    }
}

fn channel_rights(candidate: u8, watcher: u8, channel: u8) -> ChannelRights
    requires { channel < 4 }
    ensures { result ≡ channel_rights candidate watcher channel }
{
    ChannelRights {
        candidate: rights_in(candidate, channel),
        watcher: rights_in(watcher, channel),
    }
}

// Those of two bytes, the candidate's and the watcher's.
pub fn board_rights(candidate: u8, watcher: u8) -> BoardRights
    ensures { result ≡ board_rights candidate watcher }
{
    BoardRights {
        channels: [
            channel_rights(candidate, watcher, 0),
            channel_rights(candidate, watcher, 1),
            channel_rights(candidate, watcher, 2),
            channel_rights(candidate, watcher, 3),
        ],
    }
}
