ghost use Rattle.std.specs.Prelude.{◌≡◌, true, false, not, ◌&&◌, ◌||◌, List, Some, None};
ghost use Rattle.std.specs.List.{list_any, list_all};
ghost use Rattle.flow_tree.specs.declared.exec.Exec.{Exec};
ghost use Rattle.flow_tree.specs.declared.exec.Kind.{Kind};
ghost use Rattle.flow_tree.specs.declared.exec.Body.TheVariants.{Auth, Sub};
ghost use Rattle.flow_tree.specs.Words.{is_offered};
ghost use Rattle.conditions.specs.declared.account.AccountView.{AccountView};
ghost use Rattle.conditions.specs.Setup.{configured, kind_configured, is_set_up, is_required_step};

/// Executions are configured for a known user where each required one that isn't a condition is
/// set up, or where there is no such one and some alternative is. An authenticator is set up where
/// the user has what it asks for, and a subflow where its executions are configured.
pub fn configured_law()
    ensures unknown { (es : List Exec) → configured None es ≡ false }
    ensures required { (a : AccountView) (es : List Exec) → list_any is_required_step es ≡ true
        → configured (Some a) es ≡ list_all (λ e. not (is_required_step e) || is_set_up a e) es }
    ensures offered { (a : AccountView) (es : List Exec) → list_any is_required_step es ≡ false
        → configured (Some a) es ≡ list_any (λ e. is_offered e && is_set_up a e) es }
    ensures leaf { (a : AccountView) (e : Exec) (kind : Kind) → e.body ≡ Auth kind
        → is_set_up a e ≡ kind_configured a kind }
    ensures subflow { (a : AccountView) (e : Exec) (es : List Exec) → e.body ≡ Sub es
        → is_set_up a e ≡ configured (Some a) es }
{}
