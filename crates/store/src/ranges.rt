// Refusal 4: the lent lengths are those at making, and every number is in its range.
ghost use Rattle.std.specs.Prelude.{◌≡◌};
ghost use Rattle.rules.specs.Control.{in_range};
ghost use Rattle.store.specs.View.{viewed};

use crate::Control;
use crate::lent::Lent;
use heap::HEADER;

impl Control {
    // Whether the control record passes test 4 with these lent words.
    pub(crate) fn valid(&self, lent: Lent) -> bool
        ensures { result ≡ in_range (viewed self.now lent.entry) }
    {
        let n = self.length0;
        let c = self.cursor;
        let lengths = (n == lent.half0.len())
            & (self.length1 == lent.half1.len())
            & (self.capacity == lent.list.len());
        let allowed = Control::half_allowed(n)
            & (n == self.length1)
            & (n / HEADER <= self.capacity);
        let halves = (c.current <= 1) & (c.frontier0 <= n) & (c.frontier1 <= n);
        let roots = (c.phase == Control::ROOT_MARK) | (c.phase == Control::ROOT_FLIP);
        let place = (roots & (c.place <= Control::GLOBALS)) | (!roots & (c.place <= n));
        let walk = (c.phase <= Control::LAST_PHASE) & place & (c.field <= Control::MOST_FIELDS);
        let grey = (c.head <= c.tail) & (c.tail <= self.capacity);
        let levels = self
            .sessions
            .iter()
            .all(|session| session.level <= Control::LAST_LEVEL);
        lengths & allowed & halves & walk & grey & levels
    }
}
