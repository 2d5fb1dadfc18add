// Every call of the program has a due outcome.
ghost use Rattle.std.specs.Prelude.{ℕ, List};
ghost use Rattle.c_lower.specs.ProgramCode.{lowered};
ghost use Rattle.c_tree.specs.Trees.{ProgramTree};
ghost use Rattle.c_tree.specs.WellScoped.{IsWellScoped};
ghost use Rattle.certificate_rules.specs.Validity.{IsValid};
ghost use Rattle.codegen_link.specs.declared.options.Options.{Options};
ghost use Rattle.codegen_link.specs.Plans.{AreInRange};
ghost use Rattle.command_words.specs.declared.options.Audit.{Audit as AuditOptions};
ghost use Rattle.command_words.specs.declared.options.Policy.{Policy};
ghost use Rattle.command_words.specs.declared.options.Placement.{Placement};
ghost use Rattle.command_words.specs.WordList.{Request, Serve, Run, Build, Check, Graph, Demo, Audit, Budget, IsWordList};
ghost use Rattle.command_outcomes.specs.Outcome.{Outcome};
ghost use Rattle.command_outcomes.specs.Done.{Outside};
ghost use Rattle.pair_commands.specs.BuildsFiles.{HasFittingCode};
ghost use Rattle.capriccio_call.specs.Due.{IsDue};
ghost use Rattle.pair_commands.specs.Graphs.{HasFittingFrames};
ghost use Rattle.stack_build.specs.Builds.{IsLaidOut};
ghost use Rattle.stack_certificate.specs.declared.certificates.Certificate.{Certificate};
ghost use Rattle.stack_image.specs.declared.images.Image.{Image};
ghost use Rattle.decisions.specs.Told.{HoldBytes};

/// Law: for words that aren't a word list, an outcome is due.
pub fn usage_is_due()
    ensures { (words : List (List ℕ)) (before : Outside) → ((request : Request) → ¬ IsWordList words request) → (outcome : Outcome) × IsDue words before outcome }
{}

/// Law: for the words of `check`, an outcome is due, whatever the files are.
pub fn check_is_due()
    ensures { (words : List (List ℕ)) (before : Outside) (source image certificate : List ℕ) →
        IsWordList words (Check source image certificate) → HoldBytes before.files → (outcome : Outcome) × IsDue words before outcome }
{}

/// Law: for the words of `run`, an outcome is due, whatever the files and the trace are: each run reaches a stop.
pub fn run_is_due()
    ensures { (words : List (List ℕ)) (before : Outside) (source image certificate : List ℕ) (policy : Policy) →
        IsWordList words (Run source image certificate policy) → HoldBytes before.files → (outcome : Outcome) × IsDue words before outcome }
{}

/// Law: for the words of `graph`, an outcome is due, whatever the files are.
pub fn graph_is_due()
    ensures { (words : List (List ℕ)) (before : Outside) (source : List ℕ) (placement : Placement) →
        IsWordList words (Graph source placement) → HoldBytes before.files → (outcome : Outcome) × IsDue words before outcome }
{}

/// Law: for the words of `build`, an outcome is due, whatever the files are.
pub fn build_is_due()
    ensures { (words : List (List ℕ)) (before : Outside) (source image certificate : List ℕ) (placement : Placement) →
        IsWordList words (Build source image certificate placement) → HoldBytes before.files → (outcome : Outcome) × IsDue words before outcome }
{}

/// Law: the pair that is laid out for a program is valid, if no frame is too large and the code isn't.
pub fn layout_is_valid()
    ensures { (program : ProgramTree) (options : Options) (image : Image) (certificate : Certificate) →
        IsWellScoped program → AreInRange options →
        HasFittingFrames program options.max_path → HasFittingCode program options →
        IsLaidOut (lowered program) options image certificate →
        IsValid (lowered program) image certificate }
{}

/// Law: for the words of `serve`, an outcome is due, whatever the files and the trace are.
pub fn serve_is_due()
    ensures { (words : List (List ℕ)) (before : Outside)
        (source : List ℕ) (placement : Placement) (policy : Policy) →
        IsWordList words (Serve source placement policy) → HoldBytes before.files →
        (outcome : Outcome) × IsDue words before outcome }
{}

/// Law: for the words of `demo`, an outcome is due.
pub fn demo_is_due()
    ensures { (words : List (List ℕ)) (before : Outside) (number : ℕ) →
        IsWordList words (Demo number) → (outcome : Outcome) × IsDue words before outcome }
{}

/// Law: for the words of `budget`, an outcome is due, whatever the files are.
pub fn budget_is_due()
    ensures { (words : List (List ℕ)) (before : Outside) (source image certificate : List ℕ) →
        IsWordList words (Budget source image certificate) → HoldBytes before.files → (outcome : Outcome) × IsDue words before outcome }
{}

/// Law: for the words of `audit`, an outcome is due, whatever the files and the trace are.
pub fn audit_is_due()
    ensures { (words : List (List ℕ)) (before : Outside) (source log : List ℕ) (options : AuditOptions) →
        IsWordList words (Audit source log options) → (outcome : Outcome) × IsDue words before outcome }
{}

/// Law: for every list of words, an outcome is due, whatever the files and the trace are.
pub fn outcome_is_due()
    ensures { (words : List (List ℕ)) (before : Outside) → HoldBytes before.files → (outcome : Outcome) × IsDue words before outcome }
{}
