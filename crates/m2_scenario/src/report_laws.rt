//! What holds of reports. This function does nothing: it stands for the laws that its contract names.

ghost use Rattle.m2_scenario.specs.ReportLaws.{ReportsAreReadInOneWay, SortedReportsAreReadInOneWay};

use m2_bytes::hex_is_read_again;

/// A report is read in one way. Where two runs of the same nodes print one text, each node's
/// dispatchers were called alike in both, call by call: a message or a reset, from the same peer, of
/// the same priority, path and kind, with the same front, middle and data. Where the report is sorted
/// it is so of the sorted calls.
pub fn reports_are_read_in_one_way()
    ensures calls { ReportsAreReadInOneWay }
    ensures sorted { SortedReportsAreReadInOneWay }
{
    hex_is_read_again();
}
