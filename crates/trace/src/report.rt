// The report of a run: "the numbers of MSA, MSD, multipartner and refused frames".
ghost use Rattle.std.specs.Prelude.{◌≡◌, cond};
ghost use Rattle.frame.specs.Inner.FrameAnswers.{firework_round};
ghost use Rattle.trace.specs.Rules.TraceRun.{one_refused, one_carried};
ghost use Rattle.trace.specs.Inner.TraceAnswers.{report_in};
ghost use Rattle.trace.specs.Inner.Sent.{FewFrames};

use frame::firework::Firework;

#[derive(Clone, Copy)]
pub struct Report {
    pub msa: u64,
    pub msd: u64,
    pub multipartner: u64,
    pub refused: u64,
}

pub const NO_FRAMES: Report = Report {
    msa: 0,
    msd: 0,
    multipartner: 0,
    refused: 0,
};

#[tactic(auto, unfolding(crate::specs::Rules::TraceRun::one_refused))]
fn one_refused(report: Report) -> Report
    requires { FewFrames (report_in report) }
    ensures { report_in result ≡ one_refused (report_in report) }
{
    Report {
        refused: report.refused + 1,
        ..report
    }
}

// A frame that was carried out, by its firework. None without one is.
fn one_carried(report: Report, firework: Option<Firework>) -> Report
    requires { FewFrames (report_in report) }
    ensures { report_in result ≡ one_carried (firework_round firework) (report_in report) }
{
    let Some(opened) = firework else {
        return one_refused(report);
    };
    match opened {
        Firework::Address => Report {
            msa: report.msa + 1,
            ..report
        },
        Firework::Data => Report {
            msd: report.msd + 1,
            ..report
        },
        Firework::Multipartner(_) => Report {
            multipartner: report.multipartner + 1,
            ..report
        },
    }
}

// One frame more: "a refused frame counting as refused only". Two arguments and no Option: a refused frame has its firework too, and an Option would
// be made of the two at the one call.
pub fn counted(report: Report, carried: bool, firework: Option<Firework>) -> Report
    requires { FewFrames (report_in report) }
    ensures { report_in result ≡ cond carried (one_carried (firework_round firework) (report_in report)) (one_refused (report_in report)) }
{
    if !carried {
        return one_refused(report);
    }
    one_carried(report, firework)
}
