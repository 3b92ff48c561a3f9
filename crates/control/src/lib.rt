// 01, Registers: a control write of one channel, the commands of WR0 and what a write to a register starts, on the definitions of crate channel. Any value
// of a channel is accepted. Assumes nothing.
#![tactic(auto)]

ghost use Rattle.std.specs.Prelude.{◌≡◌};
ghost use Rattle.common.specs.Mode.{synchronous};
ghost use Rattle.channel.specs.Channel.{with_pointer, settled};
ghost use Rattle.channel.specs.Control.{commanded, preset, command_step, preset_step, write_wr0};
ghost use Rattle.channel.specs.Control.{set_wr1, set_wr2, set_wr3, in_mode, set_wr4, set_register};
ghost use Rattle.channel.specs.Control.{control_written};

use channel::{Answer, Answered, Channel, Side};
use common::{Mode, Refusal, in_blocks, in_sdlc, same_mode};
use settings::{command_in, enters_hunt, mode_of, not_built, pointer_in, preset_in, transmit_on};

// The mode hunts for a flag or a sync.
fn hunts(m: Mode) -> bool
    ensures { result ≡ synchronous m }
{
    in_sdlc(m) || in_blocks(m)
}

// A command of WR0 but Channel Reset.
#[tactic(auto, unfolding(channel::specs::Control::commanded))]
fn commanded(mut c: Channel, command: u8) -> Channel
    ensures { result ≡ commanded c command }
{
    match command {
        Channel::SEND_ABORT => c.sender = c.sender.send_abort(c.registers.sending(c.lines)),
        Channel::RESET_STATUS => c.status = c.status.afresh(c.live()),
        Channel::ARM_FIRST_CHARACTER => c.armed = true,
        Channel::RESET_TRANSMIT => c.transmit = false,
        Channel::ERROR_RESET => c.queue = c.queue.error_reset(),
        _ => {}
    }
    c
}

// WR0's D7-6.
#[tactic(auto, unfolding(channel::specs::Control::preset))]
fn preset(mut c: Channel, code: u8) -> Channel
    ensures { result ≡ preset c code }
{
    match code {
        Channel::PRESET_RECEIVE_CHECK => {
            c.receiver = c.receiver.preset_check(c.registers.mode());
        }
        Channel::PRESET_TRANSMIT_CHECK => c.sender = c.sender.preset_check(c.registers.mode()),
        Channel::CLEAR_UNDERRUN => c.sender = c.sender.clear_latch(),
        _ => {}
    }
    c
}

#[tactic(auto, unfolding(channel::specs::Control::command_step))]
fn command_step(c: Channel, v: u8) -> Channel
    ensures { result ≡ command_step c v }
{
    commanded(c, command_in(v)).settled(c)
}

#[tactic(auto, unfolding(channel::specs::Control::preset_step))]
fn preset_step(c: Channel, v: u8) -> Channel
    ensures { result ≡ preset_step c v }
{
    preset(c, preset_in(v)).settled(c)
}

// WR0.
#[tactic(auto, unfolding(channel::specs::Control::write_wr0))]
fn write_wr0(c: Channel, v: u8) -> Channel
    ensures { result ≡ write_wr0 c v }
{
    if command_in(v) == Channel::CHANNEL_RESET {
        return Channel::reset(c.lines);
    }
    let mut d = preset_step(command_step(c, v), v);
    d.pointer = pointer_in(v);
    d
}

fn set_wr1(mut c: Channel, v: u8) -> Channel
    ensures { result ≡ set_wr1 c v }
{
    c.registers.wr1 = v;
    c.transmit &= transmit_on(v);
    c
}

fn set_wr2(mut c: Channel, w: Side, v: u8) -> Channel
    ensures { result ≡ set_wr2 c w v }
{
    if let Side::B = w {
        c.registers.wr2 = v;
    }
    c
}

fn set_wr3(mut c: Channel, v: u8) -> Channel
    ensures { result ≡ set_wr3 c v }
{
    c.registers.wr3 = v;
    if enters_hunt(v) && hunts(c.registers.mode()) {
        c.receiver = c.receiver.enter_hunt();
    }
    c
}

// The sender idles, and the receiver starts again.
fn in_mode(mut c: Channel, m: Mode) -> Channel
    ensures { result ≡ in_mode c m }
{
    c.sender = c.sender.idle();
    c.receiver = c.receiver.mode_changed(hunts(m));
    c
}

// A WR4 that is accepted.
#[tactic(auto, unfolding(channel::specs::Control::set_wr4))]
fn set_wr4(mut c: Channel, v: u8) -> Channel
    ensures { result ≡ set_wr4 c v }
{
    let m = mode_of(v);
    let same = same_mode(c.registers.mode(), m);
    c.registers = c.registers.with_wr4(v);
    if same { c } else { in_mode(c, m) }
}

// The register that the pointer names.
#[tactic(auto, unfolding(channel::specs::Control::set_register))]
fn set_register(mut c: Channel, w: Side, p: u8, v: u8) -> Channel
    ensures { result ≡ set_register c w p v }
{
    match p {
        1 => c = set_wr1(c, v),
        2 => c = set_wr2(c, w, v),
        3 => c = set_wr3(c, v),
        4 => c = set_wr4(c, v),
        5 => c.registers.wr5 = v,
        6 => c.registers.wr6 = v,
        _ => c.registers.wr7 = v,
    }
    c
}

// A register is written, the status rule run and the pointer used.
fn write_register(c: Channel, w: Side, v: u8) -> Channel
    ensures { result ≡ with_pointer (settled c (set_register c w c.pointer v)) 0 }
{
    let mut d = set_register(c, w, c.pointer, v).settled(c);
    d.pointer = 0;
    d
}

// A control write.
#[tactic(auto, unfolding(channel::specs::Control::control_written))]
pub fn control_write(mut c: Channel, w: Side, v: u8) -> Answered
    ensures { result ≡ control_written c w v }
{
    if c.pointer == 0 {
        c = write_wr0(c, v);
    } else if c.pointer == 4 && not_built(v) {
        return Answered {
            answer: Answer::Refused(Refusal::Setting),
            channel: c,
        };
    } else {
        c = write_register(c, w, v);
    }
    Answered {
        answer: Answer::Done,
        channel: c,
    }
}
