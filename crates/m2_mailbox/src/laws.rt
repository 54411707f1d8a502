//! What a merge of lists is. These functions do nothing: each stands for the law that its contract
//! names.

ghost use Rattle.m2_mailbox.specs.Laws.{EachListIsCut, MergeOfOneIsTheList};

/// With one putter, what was taken and then what is held is what it put, in order.
pub fn merge_of_one_list_is_the_list<T>()
    ensures { MergeOfOneIsTheList T }
{}

/// Of each putter's items those that were taken are a prefix, in its order.
pub fn merge_is_cut_where_the_taker_stands<T>()
    ensures { EachListIsCut T }
{}
