// What each command writes if nothing fails.
ghost use Rattle.std.specs.Prelude.{ℕ, ◌≡◌, ◌≢◌, ◌≤◌, ◌++◌, ◌∷◌, List, [], Some, codes};
ghost use Rattle.cap_io.specs.Files.{Files};
ghost use Rattle.c_tree.specs.Trees.{ProgramTree};
ghost use Rattle.c_lower.specs.ProgramCode.{lowered};
ghost use Rattle.call_cycles.specs.Cycles.{IsOnCycle};
ghost use Rattle.chunk_budget.specs.declared.budgets.Budget.{Budget};
ghost use Rattle.chunk_budget.specs.LeastBudgets.{IsLeastBudget};
ghost use Rattle.command_words.specs.declared.options.Audit.{Audit as AuditOptions};
ghost use Rattle.command_words.specs.declared.options.Placement.{Placement};
ghost use Rattle.command_words.specs.declared.options.Policy.{Policy};
ghost use Rattle.command_words.specs.WordList.{Serve, Run, Build, Check, Graph, Demo, Audit, Budget as AskBudget, IsWordList};
ghost use Rattle.stack_build.specs.Builds.{IsLaidOut};
ghost use Rattle.stack_image.specs.declared.images.Image.{Image};
ghost use Rattle.stack_certificate.specs.declared.certificates.Certificate.{Certificate};
ghost use Rattle.workload.specs.Traces.{trace_text};
ghost use Rattle.workload.specs.Programs.{program_text};
ghost use Rattle.command_outcomes.specs.Done.{Outside, WhereTold, AreStored};
ghost use Rattle.command_files.specs.Loads.{IsSourceText};
ghost use Rattle.command_files.specs.Loaded.{IsLoaded};
ghost use Rattle.command_outcomes.specs.declared.documents.Document.TheVariants as document;
ghost use Rattle.command_audit.specs.Audits.{reading_of};
ghost use Rattle.lawful_reading.specs.Judgements.{IsJudgementOf};
ghost use Rattle.lawful_reading.specs.declared.judgement.Judgement.{Judgement};
ghost use Rattle.pair_commands.specs.BuildsFiles.{built, built_line};
ghost use Rattle.pair_commands.specs.Budgets.{budget_text};
ghost use Rattle.capriccio_commands.specs.Demos.{demo_sizes, demo_policy};
ghost use Rattle.command_options.specs.Options.{sizes_of};
ghost use Rattle.pair_commands.specs.Graphs.{IsAnalysed, HasFittingFrames};
ghost use Rattle.pair_commands.specs.Runs.{setup_of, pool_bytes};
ghost use Rattle.decisions.specs.Given.{HasAnswered, HasSource, HasBuildable, HasValidPair};
ghost use Rattle.decisions.specs.Looked.{LooksAtGoodLines};
ghost use Rattle.decisions.specs.Written.{UnlessMemory, WritesJudgement, WritesLog, WritesSummary, WritesText};

/// Law: `serve` of a source that reads as a program, with frames and code that aren't too large, if no line of the
/// trace that is examined is refused. The output took the whole lawful log of the pair that is laid out, and the status
/// is 0, 10, 11, 12, 13 or 14.
pub fn serve_writes_its_log()
    ensures { (words : List (List ℕ)) (files : Files) (trace name : List ℕ) (placement : Placement) (policy : Policy) (program : ProgramTree)
        (before after : Outside) (status : ℕ) →
        HasAnswered words files trace before after status → IsWordList words (Serve name placement policy) →
        HasBuildable files name (sizes_of placement) program →
        ((i : Image) (c : Certificate) → IsLaidOut (lowered program) (sizes_of placement) i c → LooksAtGoodLines (setup_of program i c policy) trace) →
        UnlessMemory status ((i : Image) × (c : Certificate) × IsLaidOut (lowered program) (sizes_of placement) i c
        × WritesLog (setup_of program i c policy) trace before after status) }
{}

/// Law: `run` of a valid pair, with its pool within the limit, if no line of the trace that is examined is refused. The
/// output took the whole lawful log, and the status is 0, 10, 11, 12, 13 or 14.
pub fn run_writes_its_log()
    ensures { (words : List (List ℕ)) (files : Files) (trace source image certificate : List ℕ) (policy : Policy) (program : ProgramTree) (i : Image) (c : Certificate)
        (before after : Outside) (status : ℕ) →
        HasAnswered words files trace before after status → IsWordList words (Run source image certificate policy) →
        HasValidPair files source image certificate program i c → pool_bytes policy c ≤ 67108864 → LooksAtGoodLines (setup_of program i c policy) trace →
        UnlessMemory status (WritesLog (setup_of program i c policy) trace before after status) }
{}

/// Law: `demo`. The output took the summary of the whole lawful log of the workload on its trace, and the status is 0,
/// 10, 11, 12, 13 or 14.
pub fn demo_writes_its_summary()
    ensures { (words : List (List ℕ)) (files : Files) (trace : List ℕ) (number : ℕ) (before after : Outside) (status : ℕ) →
        HasAnswered words files trace before after status → IsWordList words (Demo number) →
        UnlessMemory status ((program : ProgramTree) × IsSourceText (program_text number) program
        × (i : Image) × (c : Certificate) × IsLaidOut (lowered program) demo_sizes i c
        × WritesSummary (setup_of program i c demo_policy) (trace_text number) before after status) }
{}

/// Law: `build` of a source that reads as a program, with frames and code that aren't too large. The pair that is laid
/// out is stored, the output took its line, and the status is 0.
pub fn build_stores_its_pair()
    ensures { (words : List (List ℕ)) (files : Files) (trace name image certificate : List ℕ) (placement : Placement) (program : ProgramTree)
        (before after : Outside) (status : ℕ) →
        HasAnswered words files trace before after status → IsWordList words (Build name image certificate placement) →
        HasBuildable files name (sizes_of placement) program →
        UnlessMemory status ((i : Image) × (c : Certificate) × IsLaidOut (lowered program) (sizes_of placement) i c
        × WhereTold (AreStored (built image certificate i c).stores) (Some files) after.files
        × WritesText (built_line i) before after status) }
{}

/// Law: `graph` of a source that reads as a program, with frames that aren't too large. The output took the lines of
/// its analysis, and the status is 0.
pub fn graph_writes_its_lines()
    ensures { (words : List (List ℕ)) (files : Files) (trace name : List ℕ) (placement : Placement) (program : ProgramTree)
        (before after : Outside) (status : ℕ) →
        HasAnswered words files trace before after status → IsWordList words (Graph name placement) →
        HasSource files name program → HasFittingFrames program placement.max_path →
        UnlessMemory status ((text : List ℕ) × IsAnalysed program placement.max_path text × WritesText text before after status) }
{}

/// Law: `check` of a valid pair. The output took `accepted`, and the status is 0.
pub fn check_writes_accepted()
    ensures { (words : List (List ℕ)) (files : Files) (trace source image certificate : List ℕ) (program : ProgramTree) (i : Image) (c : Certificate)
        (before after : Outside) (status : ℕ) →
        HasAnswered words files trace before after status → IsWordList words (Check source image certificate) →
        HasValidPair files source image certificate program i c →
        UnlessMemory status (WritesText (codes "accepted" ++ 10 ∷ []) before after status) }
{}

/// Law: `budget` of a valid pair of a program without cycles of calls. The output took the lines of its least budget,
/// and the status is 0.
pub fn budget_writes_its_lines()
    ensures { (words : List (List ℕ)) (files : Files) (trace source image certificate : List ℕ) (program : ProgramTree) (i : Image) (c : Certificate)
        (before after : Outside) (status : ℕ) →
        HasAnswered words files trace before after status → IsWordList words (AskBudget source image certificate) →
        HasValidPair files source image certificate program i c → ((f : ℕ) → IsOnCycle (lowered program) f → ⊥) →
        UnlessMemory status ((budget : Budget) × IsLeastBudget (lowered program) c budget × WritesText (budget_text budget) before after status) }
{}

/// Law: `audit` of a source that reads as a program, with a log that exists and isn't too long. The output took the
/// line with the verdict on the log, given the program, the options and the trace, and the status is 0, 15 or 16.
pub fn audit_writes_its_judgement()
    ensures { (words : List (List ℕ)) (files : Files) (trace source log : List ℕ) (options : AuditOptions) (program : ProgramTree) (bytes : List ℕ)
        (before after : Outside) (status : ℕ) →
        HasAnswered words files trace before after status → IsWordList words (Audit source log options) →
        HasSource files source program → IsLoaded document.Log (Some files) log bytes →
        UnlessMemory status ((is : Judgement) × IsJudgementOf (reading_of program options) (Some trace) bytes is × WritesJudgement is before after status) }
{}

/// Law: `check` on what `build` wrote for the same source, under three different names. If `build` ended with 0 and
/// `check` gets the files that it left, the output of `check` took `accepted`, and its status is 0.
pub fn check_accepts_what_build_wrote()
    ensures { (words check_words : List (List ℕ)) (files check_files : Files) (trace check_trace source image certificate : List ℕ) (placement : Placement)
        (program : ProgramTree) (before after check_before check_after : Outside) (check_status : ℕ) →
        source ≢ image → source ≢ certificate → image ≢ certificate →
        HasAnswered words files trace before after 0 → IsWordList words (Build source image certificate placement) →
        HasBuildable files source (sizes_of placement) program →
        HasAnswered check_words check_files check_trace check_before check_after check_status → check_before.files ≡ after.files →
        IsWordList check_words (Check source image certificate) →
        UnlessMemory check_status (WritesText (codes "accepted" ++ 10 ∷ []) check_before check_after check_status) }
{}
