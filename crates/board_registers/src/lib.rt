// Register write and read on the board: the address names a channel, Main, or nothing. A crate of its own to keep each check short.
#![tactic(auto)]

ghost use Rattle.std.specs.Prelude.{◌≡◌, ◌*◌, ◌≤◌, length};
ghost use Rattle.channel_core.specs.Answers.{outcome_of};
ghost use Rattle.channel_registers.specs.Answers.{read_outcome_of};
ghost use Rattle.channel_registers.specs.Calls.{written_of, written_answer, written_words};
ghost use Rattle.address_map.specs.Addresses.{main, channel};
ghost use Rattle.board_state.specs.State.{channel_at, with_channel_at};
ghost use Rattle.board_state.specs.Parts.{own, with_own};
ghost use Rattle.board_state.specs.Checks.{readback_size};
ghost use Rattle.board_registers.specs.Calls.{write_board_at, write_answer_at, write_board, write_answer, write_words, read_board_at, read_answer_at, read_board, read_answer};

use address_map::Region;
use board_state::Board;
use refusal::Refusal;

// A write to a channel's register, over its part of the readbacks.
fn write_channel(
    b: &mut Board,
    readbacks: &mut [u32],
    number: u8,
    offset: u16,
    value: u16,
) -> Result<(), Refusal>
    requires number { number ≤ 4 }
    requires lent { length readbacks.old ≡ b.old.m * 8 }
    ensures next { b.new ≡ with_channel_at b.old number (written_of (channel_at b.old number) offset value) }
    ensures answer { outcome_of result ≡ written_answer (channel_at b.old number) offset value }
    ensures words { readbacks.new ≡ with_own readbacks.old (readback_size b.old) number (written_words (channel_at b.old number) (own readbacks.old (readback_size b.old) number) b.old.m offset value) }
{
    let index = usize::from(registers::zero_based(number));
    let part = b.readback_part(index);
    channel_registers::write_register(
        &mut b.channels[index],
        &mut readbacks[part],
        b.m,
        offset,
        value,
    )
}

// A write to a Main register.
fn write_main(b: &mut Board, offset: u16, value: u16) -> Result<(), Refusal>
    ensures next { b.new ≡ write_board_at (main offset) b.old value }
    ensures answer { outcome_of result ≡ write_answer_at (main offset) b.old value }
{
    register_map::check_write(register_map::main_access(offset))?;
    b.write_main(offset, value);
    Ok(())
}

#[tactic(auto, unfolding(crate::specs::Calls::write_board, crate::specs::Calls::write_answer, crate::specs::Calls::write_words))]
pub fn write_register(
    b: &mut Board,
    readbacks: &mut [u32],
    address: u32,
    value: u16,
) -> Result<(), Refusal>
    ensures next { b.new ≡ write_board b.old (length readbacks.old) address value }
    ensures answer { outcome_of result ≡ write_answer b.old (length readbacks.old) address value }
    ensures words { readbacks.new ≡ write_words b.old readbacks.old address value }
{
    b.check_readbacks(readbacks)?;
    match address_map::decode_address(address) {
        Some(Region::Main { offset }) => write_main(b, offset, value),
        Some(Region::Channel { number, offset }) => {
            write_channel(b, readbacks, number, offset, value)
        }
        None => Err(Refusal::UnmappedRegister),
    }
}

// A read of a Main register.
fn read_main(b: &mut Board, offset: u16) -> Result<u16, Refusal>
    ensures next { b.new ≡ read_board_at (main offset) b.old }
    ensures answer { read_outcome_of result ≡ read_answer_at (main offset) b.old }
{
    register_map::check_read(register_map::main_access(offset))?;
    Ok(b.read_main(offset))
}

// A read of a channel's register.
fn read_channel(b: &mut Board, number: u8, offset: u16) -> Result<u16, Refusal>
    requires { number ≤ 4 }
    ensures next { b.new ≡ read_board_at (channel number offset) b.old }
    ensures answer { read_outcome_of result ≡ read_answer_at (channel number offset) b.old }
{
    let index = usize::from(registers::zero_based(number));
    channel_registers::read_register(&mut b.channels[index], offset)
}

#[tactic(auto, unfolding(crate::specs::Calls::read_board, crate::specs::Calls::read_answer))]
pub fn read_register(b: &mut Board, address: u32) -> Result<u16, Refusal>
    ensures next { b.new ≡ read_board b.old address }
    ensures answer { read_outcome_of result ≡ read_answer b.old address }
{
    match address_map::decode_address(address) {
        Some(Region::Main { offset }) => read_main(b, offset),
        Some(Region::Channel { number, offset }) => read_channel(b, number, offset),
        None => Err(Refusal::UnmappedRegister),
    }
}
