//! What drives a bit, and what a drive changes.

ghost use Rattle.std.specs.Prelude.{◌≡◌, ◌<◌, length};
ghost use Rattle.circuit_types.specs.declared.nets.SignalBit.TheVariants.{Net};
ghost use Rattle.net_build.specs.Drivers.{IsWithin, is_driven, driven, is_nothing};

use circuit_types::SignalBit;

/// What drives a bit of a wire.
#[derive(Clone, Copy)]
pub enum Driver {
    Nothing,
    /// The bit is an input.
    Input,
    /// The output of this kept cell.
    Cell(u32),
    /// A connect, by this bit.
    Bit(SignalBit),
}

/// Drives a bit, unless that is refused; tells whether it is refused.
pub fn drive(drivers: &mut [Driver], bit: SignalBit, driver: Driver) -> bool
    requires { IsWithin (length drivers.old) bit }
    ensures refused { result ≡ is_driven drivers.old bit }
    ensures after { drivers.new ≡ driven drivers.old bit driver }
{
    match bit {
        SignalBit::Net(k) => drive_net(drivers, k as usize, driver),
        _ => true,
    }
}

fn drive_net(drivers: &mut [Driver], k: usize, driver: Driver) -> bool
    requires { k < length drivers.old }
    ensures refused { result ≡ is_driven drivers.old (Net k) }
    ensures after { drivers.new ≡ driven drivers.old (Net k) driver }
{
    if is_nothing(drivers[k]) {
        drivers[k] = driver;
        false
    } else {
        true
    }
}

fn is_nothing(driver: Driver) -> bool
    ensures { result ≡ is_nothing driver }
{
    match driver {
        Driver::Nothing => true,
        _ => false,
    }
}
