ghost use Rattle.alarm_machine.specs.Laws.{CodeChangesAreReported, CodesPrintDifferently, LatchOutlastsScans, NewConditionInServiceNeedsAck, NoOrderHidesStandingCondition, NoUnsuppressedScanAcknowledges, OnlyAckAcknowledges, OnlyResetEndsLatch, RepeatedScanChangesNothing, StandingConditionIsShown};

/// Law: codes that are printed alike are the same code. (It does nothing when it is called.)
pub fn codes_print_differently()
    ensures { CodesPrintDifferently }
{}

/// Law: a change of an alarm's code is reported wherever the two codes differ. (It does nothing when it is called.)
pub fn code_changes_are_reported()
    ensures { CodeChangesAreReported }
{}

/// Law: a second scan with the same condition and suppression changes nothing until a shelf ends. (It does nothing when it is called.)
pub fn repeated_scan_changes_nothing()
    ensures { RepeatedScanChangesNothing }
{}

/// Law: a scan that doesn't suppress an alarm never acknowledges it: an unacknowledged alarm stays unacknowledged. (It does nothing when it is called.)
pub fn no_unsuppressed_scan_acknowledges()
    ensures { NoUnsuppressedScanAcknowledges }
{}

/// Law: a new condition makes an alarm unacknowledged if it is in service and the scan doesn't suppress it. (It does nothing when it is called.)
pub fn new_condition_in_service_needs_ack()
    ensures { NewConditionInServiceNeedsAck }
{}

/// Law: after a scan with its condition and without suppression an alarm is shown as an alarm, acknowledged or not, unless it is shelved or out of
/// service. So it is never normal then. (It does nothing when it is called.)
pub fn standing_condition_is_shown()
    ensures { StandingConditionIsShown }
{}

/// Law: no order takes an alarm from view whose condition stands, but one that shelves it or takes it out of service. (It does nothing when it
/// is called.)
pub fn no_order_hides_standing_condition()
    ensures { NoOrderHidesStandingCondition }
{}

/// Law: of the orders that leave an alarm in service, an acknowledgement alone ends its wait for an acknowledgement. (It does nothing when it
/// is called.)
pub fn only_ack_acknowledges()
    ensures { OnlyAckAcknowledges }
{}

/// Law: a latched alarm stays as it is through scans without its condition and without suppression. (It does nothing when it is called.)
pub fn latch_outlasts_scans()
    ensures { LatchOutlastsScans }
{}

/// Law: of the orders a reset alone makes a latched alarm normal. (It does nothing when it is called.)
pub fn only_reset_ends_latch()
    ensures { OnlyResetEndsLatch }
{}
