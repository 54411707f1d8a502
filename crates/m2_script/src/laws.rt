//! What is promised of a scenario's lines and of the records before them. These functions do nothing: each stands for the law that its
//! contract names.

ghost use Rattle.m2_script.specs.Laws as laws;

/// Each deed of a valid scenario's lines is of nodes that there are, and each step that is planned is of a link.
pub fn scripts_are_within()
    ensures { laws.ScriptsAreWithin }
{}

/// A message whose parts are as short as those of a post may be can be sent.
pub fn short_posts_are_sendable()
    ensures { laws.ShortPostsAreSendable }
{}

/// A center can begin with the records of a valid scenario's node over its links, whatever they are to do and however long they wait.
pub fn new_records_can_begin()
    ensures { laws.NewRecordsCanBegin }
{}
