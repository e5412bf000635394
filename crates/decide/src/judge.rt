//! Whether an event of a badge is refused, whatever it is.

ghost use Rattle.std.specs.Prelude.{◌≡◌};
ghost use Rattle.std.specs.Result.{result_err};
ghost use Rattle.decide.specs.Subjects.{refused_by};

use crate::subject::Subject;
use calls::call::Event;
use calls::refusal::Refusal;
use plan::Plan;
use point::Point;

impl<'a, P: Plan> Subject<'a, P> {
    /// Whether the event is refused.
    pub fn refusal(&self, event: Event) -> Result<(), Refusal>
        ensures { result_err result ≡ refused_by P.Plan.hall self.now event }
    {
        match event {
            // its two numbers apart: read as one, they wait until both of the caller's writes are done
            Event::Report { at: Point { x, y } } => self.report(Point { x, y }),
            Event::Miss => self.miss(),
            Event::Open { session } => self.open(session),
            Event::Close { session } | Event::Roles { session } => self.open_session(session),
            Event::Activate { session, role } => self.activate(session, role),
            Event::Drop { session, role } => self.drop(session, role),
            Event::Where { role } | Event::Enabled { role } => self.of_role(role),
            Event::Ask {
                session,
                operation,
                object,
            } => self.ask(session, operation, object).map(|_| ()),
        }
    }
}
