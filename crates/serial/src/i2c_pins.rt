// An I2C report (`i2c_pins_at`): the engine's step, and what it asks for done.
ghost use Rattle.std.specs.Prelude.{◌≡◌};
ghost use Rattle.sensor.specs.RegisterReads.{prepare_read, read_began};
ghost use Rattle.writes.specs.Write.{write_register};
ghost use Rattle.serial.specs.I2cPins as Z;

use i2c::edges::edge;
use i2c::types::{Action, Edge, Levels};
use samples::sync_local_until;
use sensor::types::{Fetched, Sensor};
use time::Time;
use writes::write::write_register;

#[tactic(auto, unfolding(crate::specs::I2cPins::i2c_listens))]
pub fn i2c_listens(sensor: Sensor) -> bool
    ensures { result ≡ Z.i2c_listens sensor }
{
    !sensor.frame.selected && !sensor.is_off() && !sensor.serial_not_ready()
}

#[tactic(auto, unfolding(crate::specs::I2cPins::ones_for))]
pub fn ones_for(tx: Option<u8>) -> u8
    ensures { result ≡ Z.ones_for tx }
{
    tx.unwrap_or(0xff)
}

fn drop_byte(sensor: &mut Sensor)
    ensures { sensor.new ≡ Z.byte_dropped sensor.old }
{
    sensor.frame = sensor.frame.sending(None);
    sensor.reads = sensor.reads.drop();
}

fn write(sensor: &mut Sensor, r: u8, v: u8, now: Time)
    ensures { sensor.new ≡ Z.acknowledge_begun (write_register sensor.old r v now) }
{
    *sensor = write_register(*sensor, r, v, now);
    sensor.i2c = sensor.i2c.written(sensor.is_quiet());
}

fn launch(sensor: &mut Sensor, r: u8)
    ensures { sensor.new ≡ Z.launched (prepare_read sensor.old r) }
{
    let Fetched {
        sensor: fetched,
        sent,
    } = sensor.prepare_read(r);
    *sensor = fetched;
    sensor.frame = sensor.frame.sending(sent);
    sensor.i2c = sensor.i2c.launched(ones_for(sent));
}

fn begin_read(sensor: &mut Sensor, r: u8)
    ensures { sensor.new ≡ read_began sensor.old r }
{
    *sensor = sensor.read_began(r);
}

#[tactic(auto, unfolding(crate::specs::I2cPins::acted))]
fn act(sensor: &mut Sensor, action: Option<Action>, now: Time)
    ensures { sensor.new ≡ Z.acted action sensor.old now }
{
    match action {
        None => {}
        Some(Action::Drop) => drop_byte(sensor),
        Some(Action::Write(r, v)) => write(sensor, r, v, now),
        Some(Action::Launch(r)) => launch(sensor, r),
        Some(Action::ReadBegan(r)) => begin_read(sensor, r),
    }
}

#[tactic(auto, unfolding(crate::specs::I2cPins::i2c_pins))]
fn i2c_pins(sensor: &mut Sensor, e: Edge, now: Time)
    ensures { sensor.new ≡ Z.i2c_pins sensor.old e now }
{
    if i2c_listens(*sensor) {
        let sent = ones_for(sensor.frame.tx);
        let t = sensor.i2c.stepped(e, sensor.is_quiet(), sent);
        sensor.i2c = t.state;
        act(sensor, t.action, now);
    } else {
        sensor.i2c = sensor.i2c.abort();
    }
}

// As `sync_rise` and `sync_fall` of SPI: each asks another thing of its edge, and all that they share is a call.
#[tactic(auto, unfolding(crate::specs::I2cPins::pins_synced))]
fn sync_pins(sensor: &mut Sensor, e: Edge, now: Time)
    ensures { sensor.new ≡ Z.pins_synced sensor.old e now }
{
    if i2c_listens(*sensor) && sensor.i2c.consumes(e) && !sensor.is_quiet() {
        sync_local_until(sensor, now, true);
    }
}

pub fn i2c_pins_at(sensor: &mut Sensor, before: Levels, after: Levels, now: Time)
    ensures { sensor.new ≡ Z.i2c_pins_at sensor.old before after now }
{
    let e = edge(before, after);
    sync_pins(sensor, e, now);
    i2c_pins(sensor, e, now);
}
