//! That no lossless session is ever reset, whatever connects cross, sockets break and asks arrive late; that its
//! messages come in order, each once; and that every two journals of such a link are a run of it.
//!
//! What it is: definitions and laws. `specs/Link.antt` is a link as this theorem sees it: of each side what it keeps,
//! where it stands, what is on its way to it, and the asks that it left behind unjudged. `specs/Steps.antt` is what may
//! happen on it, and `specs/CrossingLaws.antt` what is promised of it.
//!
//! `specs/LinkOf.antt` makes of where two journals lead such a link, and says whether the two feeds are one socket.
//! `specs/Fits.antt` says what an order of the two journals gives that fits: bytes are read after they were sent, an
//! ask is judged after it was sent. `specs/Paired.antt` says what the two sides have in common besides. The laws
//! (`specs/PairLaws.antt`): of lossless sides each lawful entry, but where a side is marked down, is steps of that link
//! with its trouble, and what the two have in common stays.
//!
//! | entry | steps of the link |
//! |---|---|
//! | Post, Dial | none |
//! | Opened | `dials` |
//! | Asked | `asks_by_ident`, `asks_by_reconnect` |
//! | Read that completes SERVER_IDENT | `takes_offer` |
//! | that completes SESSION_RECONNECT_OK | `takes_resumption` |
//! | that completes SESSION_RETRY, SESSION_RETRY_GLOBAL | `asks_again` |
//! | that completes WAIT | `leaves` |
//! | any other Read | none |
//! | Judged, an acceptance | `accepts`, `accepts_left`, also in full |
//! | Judged, Resume | `resumes`, `resumes_left` |
//! | Judged, ResetPending | `leaves`, then `refuses` or `refuses_left` |
//! | Judged, Close | `refuses_left` |
//! | Judged, any other answer | `refuses`, `refuses_left` |
//! | Obeyed | `obeys`, `obeys_in_full` |
//! | Numbered | `numbers`, then `writes` |
//! | Wrote that ends an ACK | `acknowledges` |
//! | any other Wrote | none |
//! | Accepted | `passes_mail` for each mail passed over, then `accepts_mail` |
//! | Acked | `counts` |
//! | Closed, of the feed | `leaves` |
//! | Closed, of a spent socket | none |
//!
//! `specs/Orders.antt` says it of a whole history, two lawful journals in one order that fits: it is a run of the link,
//! so between two lossless nodes no trouble comes, messages come in order, and both keep the same two cookies from the
//! first acceptance on; [`lossless_is_never_reset`] has all of it.
//!
//! What it isn't: anything that runs, or the merge of two journals. That an order fits is to be shown above, from the
//! bytes in the logs of both ends. A side that is marked down by its own node is outside.
#![tactic(auto)]

mod crossing_laws;
mod pair_laws;

pub use crossing_laws::{
    a_message_crosses, accepted_is_settled, answers_are_steps, cookies_are_mints,
    lossless_is_in_order, no_trouble_comes, runs_go_on, untroubled_is_in_order,
};
pub use pair_laws::{
    a_message_comes_over, accepted_cookies_are_settled, accepted_is_steps, acked_is_steps,
    asked_is_steps, closed_is_steps, dials_are_no_steps, entries_of_either_are_steps,
    histories_are_runs, judged_is_steps, links_turn, lossless_is_never_reset,
    messages_come_in_order, no_trouble_in_histories, numbered_is_steps, obeyed_is_steps,
    opened_is_steps, paired_stays, posts_are_no_steps, read_is_steps, starts_are_new,
    wrote_is_steps,
};
