ghost use Rattle.std.specs.Prelude.{◌≡◌, ℕ, true, false, not, ◌&&◌, ◌||◌, List, [], ◌∷◌, ◌++◌, ◌≤◌, length, nat_le, None};
ghost use Rattle.std.specs.List.{list_any, list_all};
ghost use Rattle.flow_tree.specs.declared.exec.Exec.{Exec};
ghost use Rattle.flow_tree.specs.declared.exec.Kind.{Kind};
ghost use Rattle.flow_tree.specs.declared.exec.Requirement.TheVariants.{Required, Alternative, Conditional, Disabled};
ghost use Rattle.flow_tree.specs.declared.exec.Body.TheVariants.{Auth, Sub};
ghost use Rattle.flow_tree.specs.Faults.{is_condition, fault_of};
ghost use Rattle.flow_tree.specs.Flow.{has, acts, holds, needs, flow_holds, flow_needs};
ghost use Rattle.flow_tree.specs.Places.{shape_of, places};
ghost use Rattle.flow_tree.specs.Words.{is_enabled_condition, is_offered, are_apart, have_own_levels};

/// A flow is satisfied where some execution acts and each that acts is satisfied, or where none
/// acts and some enabled alternative is satisfied. An empty flow never is.
pub fn flow_law()
    ensures acting { (t : List (List ℕ)) (es : List Exec) → list_any (acts t) es ≡ true
        → flow_holds t es ≡ list_all (λ e. not (acts t e) || holds t e) es }
    ensures offered { (t : List (List ℕ)) (es : List Exec) → list_any (acts t) es ≡ false
        → flow_holds t es ≡ list_any (λ e. is_offered e && holds t e) es }
    ensures empty { (t : List (List ℕ)) → flow_holds t [] ≡ false }
{}

/// Beside an execution that acts, an alternative doesn't count. A disabled execution never does,
/// and a condition only lets its own subflow act.
pub fn idle_law()
    ensures beside { (t : List (List ℕ)) (front back : List Exec) (e : Exec)
        → e.requirement ≡ Alternative → list_any (acts t) (front ++ back) ≡ true
        → flow_holds t (front ++ e ∷ back) ≡ flow_holds t (front ++ back) }
    ensures disabled { (t : List (List ℕ)) (front back : List Exec) (e : Exec)
        → e.requirement ≡ Disabled
        → flow_holds t (front ++ e ∷ back) ≡ flow_holds t (front ++ back) }
    ensures condition { (t : List (List ℕ)) (front back : List Exec) (e : Exec)
        → is_condition (shape_of e) ≡ true
        → flow_holds t (front ++ e ∷ back) ≡ flow_holds t (front ++ back) }
{}

/// A required execution that isn't a condition always acts. A conditional subflow acts where it
/// has an enabled condition and each of them is true. Nothing else acts.
pub fn acting_law()
    ensures required { (t : List (List ℕ)) (e : Exec) → e.requirement ≡ Required
        → acts t e ≡ not (is_condition (shape_of e)) }
    ensures conditional { (t : List (List ℕ)) (e : Exec) (es : List Exec)
        → e.requirement ≡ Conditional → e.body ≡ Sub es
        → acts t e ≡ (list_any is_enabled_condition es
        && list_all (λ c. not (is_enabled_condition c) || has t c.id) es) }
    ensures alternative { (t : List (List ℕ)) (e : Exec)
        → e.requirement ≡ Alternative → acts t e ≡ false }
    ensures disabled { (t : List (List ℕ)) (e : Exec)
        → e.requirement ≡ Disabled → acts t e ≡ false }
{}

/// A leaf is satisfied where it is true, and else needs itself. A subflow is satisfied as the
/// flow of its executions is, and needs what that needs: nothing where it is satisfied.
pub fn need_law()
    ensures leaf { (t : List (List ℕ)) (e : Exec) (kind : Kind) → e.body ≡ Auth kind
        → holds t e ≡ has t e.id }
    ensures leaf_needs { (t : List (List ℕ)) (e : Exec) (kind : Kind) → e.body ≡ Auth kind
        → has t e.id ≡ false → needs t e ≡ e.id ∷ [] }
    ensures subflow { (t : List (List ℕ)) (e : Exec) (es : List Exec) → e.body ≡ Sub es
        → holds t e ≡ flow_holds t es }
    ensures subflow_needs { (t : List (List ℕ)) (e : Exec) (es : List Exec)
        → e.body ≡ Sub es → needs t e ≡ flow_needs t es }
    ensures nothing { (t : List (List ℕ)) (es : List Exec) → flow_holds t es ≡ true
        → flow_needs t es ≡ [] }
{}

/// What a tree keeps: at most 64 executions, none deeper than 8, no id twice, and no level twice.
pub fn tree_law()
    ensures few { (es : List Exec) → fault_of es ≡ None → length (places es) ≤ 64 }
    ensures shallow { (es : List Exec) → fault_of es ≡ None
        → list_all (λ p. nat_le p.depth 8) (places es) ≡ true }
    ensures apart { (es : List Exec) → fault_of es ≡ None → are_apart (places es) ≡ true }
    ensures levels { (es : List Exec) → fault_of es ≡ None
        → have_own_levels (places es) ≡ true }
{}
