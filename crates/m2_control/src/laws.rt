//! What is written is read again, and what a reader expects of the rest. Each function has an empty
//! body: its contract is the law.

ghost use Rattle.m2_control.specs.Laws as laws;

/// The text that [`Control::write`](crate::Control::write) appends for a payload whose fields
/// keep their bounds is one of its texts, and [`Control::read`](crate::Control::read) gives the
/// payload back.
#[tactic(auto, using(crate::proofs::Written::written_is_read))]
pub fn written_payload_is_read()
    ensures { laws.WrittenIsRead }
{}

/// The payload of a tag that isn't negotiated is refused as such, whatever it is.
#[tactic(auto, using(crate::proofs::Refused::others_are_refused))]
pub fn others_are_refused()
    ensures { laws.OthersAreRefused }
{}

/// What bytes are of a banner is a function of them: the relation that says so is its graph.
#[tactic(auto, using(crate::proofs::BannerGraph::is_a_function))]
pub fn banner_is_a_function()
    ensures { laws.BannerIsAFunction }
{}

/// [`read_banner`](crate::read_banner) answers the banner that
/// [`write_banner`](crate::write_banner) has written, and its 26 bytes, whatever follows them.
#[tactic(auto, using(crate::proofs::Written::banner_is_read))]
pub fn written_banner_is_read()
    ensures { laws.BannerIsRead }
{}
