//! The laws of lifting and substitution, over all trees of the source language.
//!
//! Each function has no result but its contract, which states laws over the definitions of the crate `trees` alone: `lift m k` adds m to
//! each variable that is k or more, `subst k a` puts a, lifted by k, for variable k and lowers those above it, and `subst_list k xs` puts a
//! list for as many variables, all at once. Variables are de Bruijn indices: the innermost binder's is 0. The numbers in the laws range
//! over all numbers: the limits of terms in memory are no part of them.
//!
//! Below stand `trees`, whose lemmas (`proofs/`) hold for every language, and `pc_terms`, whose calls compute these functions; the tests
//! here run those calls. Above stands `equality_laws`.
#![tactic(auto)]

ghost use Rattle.std.specs.Prelude.{◌≡◌, ◌≤◌, ◌<◌, ◌+◌, ◌++◌, ℕ, List, [], ◌∷◌, length, map};
ghost use Rattle.std.specs.List.{All};
ghost use Rattle.trees.specs.Tree.{Rel};
ghost use Rattle.trees.specs.Substitution.{lift, subst, subst_list};
ghost use Rattle.trees.specs.Parallel.{rename, over, overs, substitute, shift, put, put_all};
ghost use Rattle.trees.specs.Closed.{Closed, ClosedEach};
ghost use Rattle.trees.specs.Measures.{depth, nodes, loose, above};
ghost use Rattle.pc_terms.specs.Syntax.{Term, HasIndex, apply, head, args};
ghost use Rattle.pc_terms.specs.Formed.{IsFormed};
ghost use Rattle.pc_terms.specs.View.{tree_of};
ghost use Rattle.pc_terms.specs.declared.term.Node.{Node};

/// A lift of a lift: a lift by nothing is the identity; two lifts are one where the second cuts off within what the first freed; and a
/// lift goes past one that cuts off above it.
pub fn lift_of_lift()
    ensures none { (k : ℕ) (t : Term) → lift 0 k t ≡ t }
    ensures merged { (j k m n : ℕ) (t : Term) → n ≤ m → m ≤ n + k → lift j m (lift k n t) ≡ lift (j + k) n t }
    ensures exchanged { (m n j k : ℕ) (t : Term) → n ≤ k → lift m n (lift j k t) ≡ lift j (k + m) (lift m n t) }
{}

/// Substitution in a lifted term: for a variable that the lift has freed it leaves a lift by one less, so nothing where the lift is by
/// one; and a variable put in for itself changes nothing.
pub fn subst_of_lifted()
    ensures freed { (k m n : ℕ) (a t : Term) → n ≤ k → k ≤ n + m → subst k a (lift (m + 1) n t) ≡ lift m n t }
    ensures unchanged { (k : ℕ) (a t : Term) → subst k a (lift 1 k t) ≡ t }
    ensures same_variable { (k : ℕ) (t : Term) → subst k (Rel 0) (lift 1 (k + 1) t) ≡ t }
    ensures list { (k : ℕ) (xs : List Term) (t : Term) → subst_list k xs (lift (length xs) k t) ≡ t }
{}

/// A lift of a substituted term: with its cutoff at or below the variable it goes past the substitution, and with its cutoff above it goes
/// into the term put in.
pub fn lift_of_subst()
    ensures past { (m n k : ℕ) (a t : Term) → n ≤ k → lift m n (subst k a t) ≡ subst (k + m) a (lift m n t) }
    ensures into { (m n k : ℕ) (a t : Term) → lift m (k + n) (subst k a t) ≡ subst k (lift m n a) (lift m (k + n + 1) t) }
{}

/// A lift of a term with a list put in, past it and into it.
pub fn lift_of_subst_list()
    ensures past { (m n k : ℕ) (xs : List Term) (t : Term) → n ≤ k → lift m n (subst_list k xs t) ≡ subst_list (k + m) xs (lift m n t) }
    ensures into { (m n k : ℕ) (xs : List Term) (t : Term) →
        lift m (k + n) (subst_list k xs t) ≡ subst_list k (map (lift m n) xs) (lift m (k + n + length xs) t) }
{}

/// The exchange of two substitutions: the later one, for a variable above, goes into what the earlier one has put in.
pub fn exchange_of_substs()
    ensures terms { (n k : ℕ) (a b t : Term) → subst (k + n) b (subst k a t) ≡ subst k (subst n b a) (subst (k + n + 1) b t) }
    ensures list_in_term { (n k : ℕ) (ys : List Term) (a t : Term) →
        subst_list (k + n) ys (subst k a t) ≡ subst k (subst_list n ys a) (subst_list (k + n + 1) ys t) }
    ensures term_in_list { (n k : ℕ) (xs : List Term) (b t : Term) →
        subst (k + n) b (subst_list k xs t) ≡ subst_list k (map (subst n b) xs) (subst (k + n + length xs) b t) }
    ensures lists { (n k : ℕ) (xs ys : List Term) (t : Term) →
        subst_list (k + n) ys (subst_list k xs t) ≡ subst_list k (map (subst_list n ys) xs) (subst_list (k + n + length xs) ys t) }
{}

/// A term that is closed below a number stays as it is under each operation whose cutoff is that number or more.
pub fn closed_terms_unchanged()
    ensures by_lift { (m n k : ℕ) (t : Term) → Closed n t → n ≤ k → lift m k t ≡ t }
    ensures by_subst { (n k : ℕ) (a t : Term) → Closed n t → n ≤ k → subst k a t ≡ t }
    ensures by_subst_list { (n k : ℕ) (xs : List Term) (t : Term) → Closed n t → n ≤ k → subst_list k xs t ≡ t }
{}

/// A list put in at once is its items put in one by one: the first for the outermost of the variables, or the last for the innermost,
/// lifted past the others.
pub fn subst_list_is_repeated()
    ensures none { (k : ℕ) (t : Term) → subst_list k [] t ≡ t }
    ensures one { (k : ℕ) (a t : Term) → subst_list k (a ∷ []) t ≡ subst k a t }
    ensures first { (k : ℕ) (a : Term) (xs : List Term) (t : Term) → subst_list k (a ∷ xs) t ≡ subst_list k xs (subst (k + length xs) a t) }
    ensures last { (k : ℕ) (xs : List Term) (a t : Term) →
        subst_list k (xs ++ a ∷ []) t ≡ subst_list k xs (subst k (lift (length xs) 0 a) t) }
{}

/// What results are closed below.
pub fn results_stay_closed()
    ensures of_lift { (m n k : ℕ) (t : Term) → Closed n t → Closed (n + m) (lift m k t) }
    ensures of_subst { (n k : ℕ) (a t : Term) → Closed (k + n + 1) t → Closed n a → Closed (k + n) (subst k a t) }
    ensures of_subst_list { (n k : ℕ) (xs : List Term) (t : Term) →
        Closed (k + n + length xs) t → ClosedEach n xs → Closed (k + n) (subst_list k xs t) }
{}

/// What results are of the form that terms in memory have: each operation on terms of that form gives one.
pub fn results_stay_formed()
    ensures of_rename { (r : ℕ → ℕ) (t : Term) → IsFormed t → IsFormed (rename r t) }
    ensures before_rename { (r : ℕ → ℕ) (t : Term) → IsFormed (rename r t) → IsFormed t }
    ensures of_substitute { (s : ℕ → Term) (t : Term) → ((i : ℕ) → IsFormed (s i)) → IsFormed t → IsFormed (substitute s t) }
    ensures of_put_all { (xs : List Term) (s : ℕ → Term) → All IsFormed xs → ((i : ℕ) → IsFormed (s i)) → (i : ℕ) → IsFormed (put_all xs s i) }
    ensures under_binders { (k : ℕ) (s : ℕ → Term) → ((i : ℕ) → IsFormed (s i)) → (i : ℕ) → IsFormed (overs k s i) }
    ensures of_lift { (m k : ℕ) (t : Term) → IsFormed t → IsFormed (lift m k t) }
    ensures before_lift { (m k : ℕ) (t : Term) → IsFormed (lift m k t) → IsFormed t }
    ensures of_subst { (k : ℕ) (a t : Term) → IsFormed a → IsFormed t → IsFormed (subst k a t) }
    ensures of_subst_list { (k : ℕ) (xs : List Term) (t : Term) → All IsFormed xs → IsFormed t → IsFormed (subst_list k xs t) }
    ensures of_apply { (f : Term) (xs : List Term) → IsFormed f → All IsFormed xs → IsFormed (apply f xs) }
    ensures of_head { (t : Term) → IsFormed t → IsFormed (head t) }
    ensures of_args { (t : Term) → IsFormed t → All IsFormed (args t) }
    ensures index { (t : Term) → IsFormed t → HasIndex t }
{}

/// A term of that form is the tree of a node, so the form asks for no more than the types of the nodes do.
pub fn formed_terms_have_nodes()
    ensures node { (t : Term) → IsFormed t → (n : Node) × (tree_of n ≡ t) }
{}

/// The loose bound is the least number that the term is closed below.
pub fn loose_is_least()
    ensures closed { (t : Term) → Closed (loose t) t }
    ensures least { (k : ℕ) (t : Term) → Closed k t → loose t ≤ k }
{}

/// A lift changes neither depth nor number of nodes, adds its amount to a loose bound above its cutoff and to none below it, and adds at
/// most its amount to the greatest variable number.
pub fn measures_of_lifted()
    ensures same_depth { (m k : ℕ) (t : Term) → depth (lift m k t) ≡ depth t }
    ensures same_nodes { (m k : ℕ) (t : Term) → nodes (lift m k t) ≡ nodes t }
    ensures loose_below { (m k : ℕ) (t : Term) → loose t ≤ k → loose (lift m k t) ≡ loose t }
    ensures loose_above { (m k : ℕ) (t : Term) → k < loose t → loose (lift m k t) ≡ loose t + m }
    ensures above_at_most { (m k : ℕ) (t : Term) → above (lift m k t) ≤ above t + m }
{}

/// The operations are renamings and substitutions for all variables at once.
pub fn parallel_forms()
    ensures of_lift { (m k : ℕ) (t : Term) → lift m k t ≡ shift m k t }
    ensures of_subst { (k : ℕ) (a t : Term) → subst k a t ≡ substitute (overs k (put a)) t }
    ensures of_subst_list { (k : ℕ) (xs : List Term) (t : Term) → subst_list k xs t ≡ substitute (overs k (put_all xs Rel)) t }
{}

/// Renamings and substitutions for all variables, one after another, are one.
pub fn parallel_operations_compose()
    ensures renamings { (t : Term) (r s : ℕ → ℕ) → rename s (rename r t) ≡ rename (λ j. s (r j)) t }
    ensures substitution_of_renamed { (t : Term) (r : ℕ → ℕ) (s : ℕ → Term) → substitute s (rename r t) ≡ substitute (λ j. s (r j)) t }
    ensures renaming_of_substituted { (t : Term) (s : ℕ → Term) (r : ℕ → ℕ) → rename r (substitute s t) ≡ substitute (λ j. rename r (s j)) t }
    ensures substitutions { (t : Term) (s q : ℕ → Term) → substitute q (substitute s t) ≡ substitute (λ j. substitute q (s j)) t }
    ensures nothing { (t : Term) → substitute Rel t ≡ t }
    ensures agreeing { (t : Term) (k : ℕ) (s q : ℕ → Term) → ((i : ℕ) → i < k → s i ≡ q i) → Closed k t → substitute s t ≡ substitute q t }
{}

/// A term is its head applied to its arguments, and the operations go into both.
pub fn spines()
    ensures whole { (t : Term) → apply (head t) (args t) ≡ t }
    ensures of_lift { (m k : ℕ) (f : Term) (xs : List Term) → lift m k (apply f xs) ≡ apply (lift m k f) (map (lift m k) xs) }
    ensures of_subst { (k : ℕ) (a f : Term) (xs : List Term) → subst k a (apply f xs) ≡ apply (subst k a f) (map (subst k a) xs) }
    ensures of_subst_list { (k : ℕ) (ys : List Term) (f : Term) (xs : List Term) →
        subst_list k ys (apply f xs) ≡ apply (subst_list k ys f) (map (subst_list k ys) xs) }
{}
