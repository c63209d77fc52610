ghost use Rattle.std.specs.Prelude.{◌≡◌, ℕ, Bool, not, ◌&&◌, nat_le, List};
ghost use Rattle.std.specs.List.{flat_map};
ghost use Rattle.flow_tree.specs.declared.exec.Exec.{Exec};
ghost use Rattle.flow_tree.specs.declared.exec.Kind.{Kind};
ghost use Rattle.flow_tree.specs.declared.exec.Body.TheVariants.{Auth, Cond, Sub};
ghost use Rattle.flow_tree.specs.declared.exec.Cond.TheVariants.{Role, Configured, Level};
ghost use Rattle.conditions.specs.Setup.{configured};
ghost use Rattle.conditions.specs.Truth.{role_true};
ghost use Rattle.flow_truths.specs.declared.view.LoginView.{LoginView};
ghost use Rattle.flow_truths.specs.Truth.{is_fresh, cookie_holds, is_leaf_true};
ghost use Rattle.flow_truths.specs.Truths.{ids_where, truths_beside, truths};

/// What is true in a tree is what is true in its executions, each beside the others. A leaf is
/// true by its kind, a role by the user's account, a condition of what is configured by the
/// executions of its own flow, and a level where it is at most the asked one and isn't fresh. In
/// a subflow the same is true as in its executions, each beside the others.
pub fn truths_law()
    ensures whole { (v : LoginView) (tree : List Exec)
        → truths v tree ≡ flat_map (truths_beside v tree tree) tree }
    ensures leaf { (v : LoginView) (tree siblings : List Exec) (e : Exec) (kind : Kind)
        → e.body ≡ Auth kind → truths_beside v tree siblings e
        ≡ ids_where (is_leaf_true v (cookie_holds v tree) e.id kind) e.id }
    ensures role { (v : LoginView) (tree siblings : List Exec) (e : Exec) (role : List ℕ)
        (negate : Bool) → e.body ≡ Cond (Role role negate) → truths_beside v tree siblings e
        ≡ ids_where (role_true v.account role negate) e.id }
    ensures configured { (v : LoginView) (tree siblings : List Exec) (e : Exec)
        → e.body ≡ Cond Configured → truths_beside v tree siblings e
        ≡ ids_where (configured v.account siblings) e.id }
    ensures level { (v : LoginView) (tree siblings : List Exec) (e : Exec) (level age : ℕ)
        → e.body ≡ Cond (Level level age) → truths_beside v tree siblings e
        ≡ ids_where (nat_le level v.level && not (is_fresh v level age)) e.id }
    ensures subflow { (v : LoginView) (tree siblings : List Exec) (e : Exec) (es : List Exec)
        → e.body ≡ Sub es
        → truths_beside v tree siblings e ≡ flat_map (truths_beside v tree es) es }
{}
