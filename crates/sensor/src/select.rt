// Select (`set_selected`).
ghost use Rattle.std.specs.Prelude.{◌≡◌};
ghost use Rattle.sensor.specs.Select as Sel;

use crate::types::Sensor;
use spi::types::Frame;

impl Sensor {
    fn reselected(self, selected: bool) -> Sensor
        ensures { result ≡ Sel.reselected self selected }
    {
        Sensor {
            frame: Frame::fresh(selected),
            i2c: self.i2c.abort(),
            reads: self.reads.drop(),
            ..self
        }
    }

    #[tactic(auto, unfolding(crate::specs::Select::selected_to))]
    fn selected_to(self, selected: bool) -> Sensor
        ensures { result ≡ Sel.selected_to self selected }
    {
        if self.frame.changes(selected) {
            return self.reselected(selected);
        }
        self
    }

    #[tactic(auto, unfolding(crate::specs::Select::may_select))]
    fn may_select(self, selected: bool) -> bool
        ensures { result ≡ Sel.may_select self selected }
    {
        selected && !self.is_off()
    }

    pub fn set_selected(self, selected: bool) -> Sensor
        ensures { result ≡ Sel.set_selected self selected }
    {
        self.selected_to(self.may_select(selected))
    }
}
