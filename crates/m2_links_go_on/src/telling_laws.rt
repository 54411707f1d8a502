//! What is promised of what is woven where ends are told of the other side. These functions do nothing: each stands for
//! the law that its contract names.

ghost use Rattle.m2_links_go_on.specs.TellingLaws as laws;

/// Of two records that are the same but for what their ends were told the same is woven.
pub fn woven_stays()
    ensures { laws.WovenStays }
{}

/// And so it is of any two records of a cluster with the same rest.
pub fn told_stays_woven<D>()
    ensures { laws.ToldStaysWoven D }
{}
