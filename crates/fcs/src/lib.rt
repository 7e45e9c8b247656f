// The frame check sequence of a run of octets (V.8 bis 7.2.7). Its number has the highest coefficient in the lowest bit, so
// that its two octets, in the order in which they are sent, are f % 256 and f / 256.
#![tactic(auto)]

ghost use Rattle.std.specs.Prelude.{◌≡◌};
ghost use Rattle.fcs.specs.Register.{turns, octet_step};
ghost use Rattle.fcs.specs.Promises.{TellsFcs};

// Eight steps of the division at once, of a register that has nothing but its eight lowest bits.
fn eight_steps(low: u8) -> u16
    ensures { result ≡ turns 8 low }
{
    let x = (low ^ (low << 4)) as u16;
    (x << 8) ^ (x << 3) ^ (x >> 4)
}

// An octet into the register.
fn octet_into(register: u16, octet: u8) -> u16
    ensures { result ≡ octet_step register octet }
{
    let low = (register % 256) as u8 ^ octet;
    (register / 256) ^ eight_steps(low)
}

// The FCS of a run of octets.
pub fn fcs_of(run: &[u8]) -> u16
    ensures { TellsFcs run.now result }
{
    let mut register = 65535u16;
    for &octet in run {
        register = octet_into(register, octet);
    }
    65535 - register
}
