//! What the program's command lines come to. Each function has an empty body; its clause is the law.
ghost use Rattle.std.specs.Prelude.{◌∷◌, [], None, Some, codes};
ghost use Rattle.bx_engine.specs.declared.forms.Form.TheVariants.{Report, Summary};
ghost use Rattle.bxemu.specs.CommandLines.{IsCampaign, IsChart, IsDebug, IsDis, IsRun, IsTidy, WithoutFault};

/// `run` names the start, the plan and each file, in this order or with the options last; what
/// stands behind `--` is a file, and so is `-`.
pub fn a_run_names_its_parts()
    ensures in_order { WithoutFault (codes "bxemu" ∷ codes "run" ∷ codes "--start" ∷ codes "m:f" ∷ codes "--plan" ∷ codes "p"
        ∷ codes "a.S" ∷ codes "b.S" ∷ []) (IsRun (codes "m:f") (codes "p") Report (codes "a.S" ∷ codes "b.S" ∷ [])) }
    ensures options_last { WithoutFault (codes "bxemu" ∷ codes "run" ∷ codes "a.S" ∷ codes "--plan=p" ∷ codes "--start=m:f" ∷ [])
        (IsRun (codes "m:f") (codes "p") Report (codes "a.S" ∷ [])) }
    ensures files_only { WithoutFault (codes "bxemu" ∷ codes "run" ∷ codes "--start" ∷ codes "m:f" ∷ codes "--plan" ∷ codes "p"
        ∷ codes "-" ∷ codes "--" ∷ codes "--plan" ∷ []) (IsRun (codes "m:f") (codes "p") Report (codes "-" ∷ codes "--plan" ∷ [])) }
{}

/// `campaign` names the same and the number of workers, which is 4 where none is named.
pub fn a_campaign_names_its_parts()
    ensures named { WithoutFault (codes "bxemu" ∷ codes "campaign" ∷ codes "--start" ∷ codes "m:f" ∷ codes "--plan" ∷ codes "p"
        ∷ codes "--workers" ∷ codes "64" ∷ codes "a.S" ∷ []) (IsCampaign (codes "m:f") (codes "p") 64 Report (codes "a.S" ∷ [])) }
    ensures signed { WithoutFault (codes "bxemu" ∷ codes "campaign" ∷ codes "a.S" ∷ codes "--workers=+2" ∷ codes "--plan=p"
        ∷ codes "--start=m:f" ∷ []) (IsCampaign (codes "m:f") (codes "p") 2 Report (codes "a.S" ∷ [])) }
    ensures left_out { WithoutFault (codes "bxemu" ∷ codes "campaign" ∷ codes "--start" ∷ codes "m:f" ∷ codes "--plan" ∷ codes "p"
        ∷ codes "a.S" ∷ codes "b.S" ∷ []) (IsCampaign (codes "m:f") (codes "p") 4 Report (codes "a.S" ∷ codes "b.S" ∷ [])) }
{}

/// `run` and `campaign` write a summary where `--summary` stands among their words, and else the report.
pub fn a_flag_asks_for_a_summary()
    ensures run { WithoutFault (codes "bxemu" ∷ codes "run" ∷ codes "--start" ∷ codes "m:f" ∷ codes "--plan" ∷ codes "p" ∷ codes "--summary"
        ∷ codes "a.S" ∷ []) (IsRun (codes "m:f") (codes "p") Summary (codes "a.S" ∷ [])) }
    ensures flag_first { WithoutFault (codes "bxemu" ∷ codes "run" ∷ codes "--summary" ∷ codes "a.S" ∷ codes "--plan=p" ∷ codes "--start=m:f" ∷ [])
        (IsRun (codes "m:f") (codes "p") Summary (codes "a.S" ∷ [])) }
    ensures campaign { WithoutFault (codes "bxemu" ∷ codes "campaign" ∷ codes "--start" ∷ codes "m:f" ∷ codes "--plan" ∷ codes "p"
        ∷ codes "a.S" ∷ codes "--summary" ∷ []) (IsCampaign (codes "m:f") (codes "p") 4 Summary (codes "a.S" ∷ [])) }
    ensures left_out { WithoutFault (codes "bxemu" ∷ codes "run" ∷ codes "--start" ∷ codes "m:f" ∷ codes "--plan" ∷ codes "p"
        ∷ codes "a.S" ∷ codes "--" ∷ codes "--summary" ∷ []) (IsRun (codes "m:f") (codes "p") Report (codes "a.S" ∷ codes "--summary" ∷ [])) }
{}

/// `tidy` names the parts that `run` names.
pub fn a_tidying_names_its_parts()
    ensures in_order { WithoutFault (codes "bxemu" ∷ codes "tidy" ∷ codes "--start" ∷ codes "m:f" ∷ codes "--plan" ∷ codes "p"
        ∷ codes "a.S" ∷ codes "b.S" ∷ []) (IsTidy (codes "m:f") (codes "p") (codes "a.S" ∷ codes "b.S" ∷ [])) }
    ensures options_last { WithoutFault (codes "bxemu" ∷ codes "tidy" ∷ codes "a.S" ∷ codes "--plan=p" ∷ codes "--start=m:f" ∷ [])
        (IsTidy (codes "m:f") (codes "p") (codes "a.S" ∷ [])) }
{}

/// `chart` names the parts that `run` names, and the schedule, which may be left out.
pub fn a_chart_names_its_parts()
    ensures named { WithoutFault (codes "bxemu" ∷ codes "chart" ∷ codes "--start" ∷ codes "m:f" ∷ codes "--plan" ∷ codes "p"
        ∷ codes "--schedule" ∷ codes "s" ∷ codes "a.S" ∷ codes "b.S" ∷ []) (IsChart (codes "m:f") (codes "p") (Some (codes "s")) (codes "a.S" ∷ codes "b.S" ∷ [])) }
    ensures left_out { WithoutFault (codes "bxemu" ∷ codes "chart" ∷ codes "a.S" ∷ codes "--plan=p" ∷ codes "--start=m:f" ∷ [])
        (IsChart (codes "m:f") (codes "p") None (codes "a.S" ∷ [])) }
{}

/// `debug` names its start and each file, in this order or with the option last; what stands behind `--` is a file.
pub fn a_session_names_its_parts()
    ensures in_order { WithoutFault (codes "bxemu" ∷ codes "debug" ∷ codes "--start" ∷ codes "m:f" ∷ codes "a.S" ∷ codes "b.S" ∷ [])
        (IsDebug (codes "m:f") (codes "a.S" ∷ codes "b.S" ∷ [])) }
    ensures option_last { WithoutFault (codes "bxemu" ∷ codes "debug" ∷ codes "a.S" ∷ codes "--start=m:f" ∷ [])
        (IsDebug (codes "m:f") (codes "a.S" ∷ [])) }
    ensures files_only { WithoutFault (codes "bxemu" ∷ codes "debug" ∷ codes "--start" ∷ codes "m:f" ∷ codes "--" ∷ codes "--plan" ∷ [])
        (IsDebug (codes "m:f") (codes "--plan" ∷ [])) }
{}

/// `dis` names its file; what stands behind `--` is a file, and so is `-`.
pub fn a_dis_names_its_file()
    ensures named { WithoutFault (codes "bxemu" ∷ codes "dis" ∷ codes "a.S" ∷ []) (IsDis (codes "a.S")) }
    ensures dash { WithoutFault (codes "bxemu" ∷ codes "dis" ∷ codes "-" ∷ []) (IsDis (codes "-")) }
    ensures escaped { WithoutFault (codes "bxemu" ∷ codes "dis" ∷ codes "--" ∷ codes "--start" ∷ []) (IsDis (codes "--start")) }
{}
