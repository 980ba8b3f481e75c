//! Laws that show what a transfer took.

ghost use Rattle.protocol.specs.Laws.Transfers.{AnswersAreTaken, OthersAreLeft, TakenWereAsked, DropsAreLeft, FetchesTell, OutputsTellNothing, TicksTakeNothing, InstallationsEnd, ExecutionsEnd, ExecutionsLeave};

/// A page is taken exactly where it answers the fetch that was sent last, and its event goes on with the next fetch of
/// that number, or installs.
pub fn answers_are_taken()
    ensures answers { AnswersAreTaken }
    ensures others { OthersAreLeft }
    ensures asked { TakenWereAsked }
    ensures drops { DropsAreLeft }
    ensures fetches { FetchesTell }
    ensures outputs { OutputsTellNothing }
    ensures ticks { TicksTakeNothing }
{}

/// Taken digests and pages are forgotten where a state is installed, and where the number that was asked for is
/// executed, and not before.
pub fn transfers_end()
    ensures installed { InstallationsEnd }
    ensures executed { ExecutionsEnd }
    ensures below { ExecutionsLeave }
{}
