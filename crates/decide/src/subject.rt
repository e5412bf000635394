//! The badge that a call or a question names.

use calls::badge::Badge;
use site::site::Site;

/// A badge by its number and by what is kept of it, over a site.
#[derive(Drop)]
pub struct Subject<'a, P> {
    pub site: &'a Site<P>,
    pub number: u16,
    // Lent, not copied: a call looks at little of it.
    pub badge: &'a Badge,
}
