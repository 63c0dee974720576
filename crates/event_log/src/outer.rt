// Outer fields: their stated length, how long one of each tag can be, and what a whole one holds.
ghost use Rattle.std.specs.Prelude.{◌≡◌, ◌+◌, ◌≤◌, ◌<◌, length};
ghost use Rattle.event_log.specs.Told.{held};
ghost use Rattle.event_log.specs.Fields.{config_with, config_of, field_of, stated_of, possible, duration_at};

use crate::{Field, events, parts};
use record::{Config, Mechanism};
use wire::fields;

// The length that the field at the front states, or 0 where its three bytes are not there.
// 0 and no Option: `impossible_grows` is used on lengths that grow as bytes come, from 0 (streaming, steady).
#[tactic(auto, unfolding(crate::specs::Fields::stated_of))]
pub(crate) fn stated(s: &[u8]) -> usize
    ensures { (result ≡ stated_of s.now) × (result < 65536) }
{
    if s.len() < 3 {
        return 0;
    }
    parts::length_at(s, 1)
}

// Whether a field of this tag can be good with a value so long.
#[tactic(auto, unfolding(crate::specs::Fields::possible))]
pub(crate) fn possible(first: bool, tag: u8, stated: usize) -> bool
    ensures { result ≡ possible first tag stated }
{
    if first {
        return tag == 0x0f && stated <= 33;
    }
    match tag {
        0x10 => stated <= 1046,
        0x11 => stated <= 1027,
        0x12 => stated <= 35,
        0x13 => stated == 0,
        0x14 => stated <= 11,
        0x15 => stated <= 30,
        0x16 => stated <= 14,
        _ => false,
    }
}

fn config_with(mechanism: Mechanism, f: &[u8]) -> Config
    requires { 36 ≤ length f.now }
    ensures { result ≡ config_with mechanism f.now }
{
    Config {
        identity: fields::get_identity(f, 3),
        sdo: octets::get_u16(f, 13),
        domain: octets::get_u8(f, 15),
        minor: octets::get_u8(f, 16),
        mechanism,
        delay_interval: octets::get_u8(f, 18),
        sync_interval: octets::get_u8(f, 19),
        asymmetry: parts::duration_at(f, 20),
    }
}

// 0x0F
#[tactic(auto, unfolding(crate::specs::Fields::config_of))]
fn config(f: &[u8]) -> Option<Field<'_>>
    ensures { held result ≡ config_of f.now }
{
    if f.len() != 36 {
        return None;
    }
    match octets::get_u8(f, 17) {
        0 => Some(Field::Config(config_with(Mechanism::EndToEnd, f))),
        1 => Some(Field::Config(config_with(Mechanism::Peer, f))),
        _ => None,
    }
}

// A whole field, with its tag and length.
#[tactic(auto, unfolding(crate::specs::Fields::field_of))]
pub(crate) fn field(first: bool, tag: u8, f: &[u8]) -> Option<Field<'_>>
    ensures { held result ≡ field_of first tag f.now }
{
    if first {
        return if tag == 0x0f { config(f) } else { None };
    }
    match tag {
        0x10 => events::event(f),
        0x11 => events::general(f),
        0x12 => events::stamp(f),
        0x13 => events::sync_timer(f),
        0x14 => events::delay_timer(f),
        0x15 => events::filter(f),
        0x16 => events::set_state(f),
        _ => None,
    }
}
