//! The vault.

ghost use Rattle.std.specs.Prelude.{◌≡◌, ◌≤◌, ◌+◌, ◌++◌, ◌∷◌, [], true, false, List, length, map, Some, OnOk, IfOk, IfErr};
ghost use Rattle.std.specs.List.{list_all, AllByRecursion};
ghost use Rattle.net_base.specs.Forms.{ListWithin};
ghost use Rattle.net_base.specs.declared.values.Hash32.{Hash32 as Id};
ghost use Rattle.ledger_types.specs.declared.tx.Tx.{Tx as Recorded};
ghost use Rattle.ledger_types.specs.States.{IsTxState};
ghost use Rattle.ledger_types.specs.Names.{ref_eq, has_repeat};
ghost use Rattle.ledger_types.specs.Vaults.{Lock, has_coin, balance_of, reserved, IsHeld, locks_of, released};
ghost use Rattle.vault.specs.Holdings.{AreHeld, is_own, is_own_coin, references_of, held_after, locked_in, freed_of, may_note, IsVault};
ghost use Rattle.vault.specs.Faults.{Refuses};

use crate::fault::ReserveFault;
use crate::states::{
    add_relevant, amounts, balance, first_coins, free_each, gains_coin, has_coin, lock_each,
    remove_consumed,
};
use coin_select::pick;
use ledger_types::{Held, HeldList, RefList, Tx};
use net_base::{Hash32, ListOf, Party, StateRef, Token, Unlimited};
use std::alloc::{AllocError, Global};
use std::marker::Model;

/// The unconsumed states that are relevant to a party, in order of recording and then of place, each with the flow that has it
/// soft-locked, and each within its limits. What was consumed is not kept: the list is of unconsumed states alone.
// Each call but `new`, `party`, `make_room` and `law_keeps_limits` goes through the states; `reserve` until it has found 64 coins.
#[derive(Drop)]
pub struct Vault {
    party: Party,
    states: Vec<Held>,
}

impl Model for Vault {
    ghost use Rattle.std.specs.Prelude.{◌-◌, vec_len, vec_capacity};
    ghost use Rattle.vault.specs.Holdings.{Holding, AreHeld};

    ghost Value = { Holding };

    ghost view = { λ v. record {
      party = v.party;
      held = v.states.items;
      room = vec_capacity v.states - vec_len v.states;
    } };

    ghost invariant = { λ v. AreHeld v.party v.states.items };
}

impl Vault {
    /// The vault of a party, without states. Takes no memory.
    pub fn new(alloc: Global, party: Party) -> Vault
        ensures party { result.party ≡ party }
        ensures held { result.held ≡ [] }
        ensures vault { IsVault party [] [] result.held }
    {
        Vault {
            party,
            states: Vec::new(alloc),
        }
    }

    /// Whose vault it is.
    pub fn party(&self) -> Party
        ensures { result ≡ self.now.party }
    {
        self.party
    }

    /// Makes room for the outputs of a transaction. Want of memory leaves the vault as it was.
    pub fn make_room(&mut self, _alloc: Global, tx: &Tx) -> Result<(), AllocError>
        ensures party { self.new.party ≡ self.old.party }
        ensures held { self.new.held ≡ self.old.held }
        ensures room { OnOk result (length tx.now.outputs ≤ self.new.room) }
        ensures keeps { self.old.room ≤ self.new.room }
    {
        self.states.reserve(tx.outputs.len())
    }

    /// Notes a recorded transaction: what it consumes goes, and its relevant outputs come, none of them locked. It takes no
    /// memory.
    ///
    /// Where the states were the party's vault over some recorded transactions and locks, and this transaction may be recorded
    /// behind them, they are its vault over these and this one.
    pub fn note(&mut self, id: &Hash32, tx: &Tx)
        requires limits { ListWithin 64 IsTxState tx.now.outputs }
        requires room { length tx.now.outputs ≤ self.old.room }
        ensures party { self.new.party ≡ self.old.party }
        ensures held { self.new.held ≡ held_after self.old.party id.now tx.now self.old.held }
        ensures room { self.old.room ≤ self.new.room + length tx.now.outputs }
        ensures vault { (recorded : List (Id × Recorded)) (locks : List Lock)
            → IsVault self.old.party recorded locks self.old.held
            → may_note recorded id.now tx.now ≡ true
            → IsVault self.old.party (recorded ++ (id.now, tx.now) ∷ []) locks self.new.held }
    {
        id.law_known();
        remove_consumed(&mut self.states, tx.inputs.as_slice());
        add_relevant(&mut self.states, self.party, id, tx.outputs.as_slice());
    }

    /// The unconsumed states, in order of recording and then of place.
    pub fn unconsumed(&self, alloc: Global) -> Result<HeldList, AllocError>
        ensures held { IfOk result (λ list. list ≡ self.now.held) }
        ensures limits { IfOk result (AllByRecursion IsHeld) }
    {
        ListOf::from_slice(alloc, self.states.as_slice())
    }

    /// The sum of the Cash of a token, locked or not.
    pub fn balance(&self, token: &Token) -> u128
        ensures { result ≡ balance_of token.now self.now.held }
    {
        balance(self.states.as_slice(), token)
    }

    /// The coins that a reservation names.
    fn first_worth(
        &self,
        alloc: Global,
        token: &Token,
        amount: u64,
    ) -> Result<HeldList, ReserveFault>
        ensures reserved { IfOk result (λ list. reserved token.now amount self.now.held
            ≡ Some list) }
        ensures fault { IfErr result (Refuses token.now amount self.now.held) }
    {
        let mut coins = first_coins(alloc, self.states.as_slice(), token)?;
        let amounts = amounts(alloc, coins.as_slice())?;
        let count = pick(amounts.as_slice(), amount)?;
        coins.truncate(count);
        Ok(ListOf::from_vec(coins))
    }

    /// Names the first coins of a token that are worth the amount, of the first 64, and no more than are needed. It locks
    /// nothing.
    ///
    /// Each of the coins is unconsumed Cash of the token that the party owns, that nothing encumbers and no flow has locked.
    /// Where no state is held twice, none is named twice: so `lock` may be asked to lock all of them.
    ///
    /// # Errors
    ///
    /// `Short` exactly where the first 64 coins are worth less than the amount, with their sum; `Memory`.
    pub fn reserve(
        &self,
        alloc: Global,
        token: &Token,
        amount: u64,
    ) -> Result<HeldList, ReserveFault>
        ensures reserved { IfOk result (λ list. reserved token.now amount self.now.held
            ≡ Some list) }
        ensures coins { IfOk result (λ list. list_all (has_coin self.now.held) (references_of list)
            ≡ true) }
        ensures own { IfOk result (λ list. list_all (is_own_coin self.now.party token.now) list
            ≡ true) }
        ensures once { has_repeat ref_eq (references_of self.now.held) ≡ false
            → IfOk result (λ list. has_repeat ref_eq (references_of list) ≡ false) }
        ensures limits { IfOk result (ListWithin 64 IsHeld) }
        ensures fault { IfErr result (Refuses token.now amount self.now.held) }
    {
        self.law_keeps_limits();
        self.first_worth(alloc, token, amount)
    }

    /// Whether the reference names a coin of some token: unconsumed Cash that nothing encumbers and no flow has locked.
    pub fn is_coin(&self, reference: &StateRef) -> bool
        ensures { result ≡ has_coin self.now.held reference.now }
    {
        has_coin(self.states.as_slice(), reference)
    }

    /// Whether the reference names a coin once the transaction of this id is noted: what `is_coin` answers behind `note`. A
    /// transaction within its limits has at most 64 outputs. It takes no memory.
    #[tactic(auto, using(crate::proofs::Gaining::coin_behind))]
    pub fn is_coin_behind(&self, id: &Hash32, tx: &Tx, reference: &StateRef) -> bool
        requires { length tx.now.outputs ≤ 64 }
        ensures { result ≡ has_coin (held_after self.now.party id.now tx.now self.now.held)
            reference.now }
    {
        let inputs = tx.inputs.as_slice();
        let outputs = tx.outputs.as_slice();
        (!inputs.contains(reference) && has_coin(self.states.as_slice(), reference))
            || gains_coin(self.party, id, 0, outputs, reference)
    }

    /// Soft-locks coins for a flow. `is_coin` tells which states are coins. It takes no memory.
    pub fn lock(&mut self, flow: u32, list: &RefList)
        requires coins { list_all (has_coin self.old.held) list.now ≡ true }
        requires once { has_repeat ref_eq list.now ≡ false }
        ensures party { self.new.party ≡ self.old.party }
        ensures held { self.new.held ≡ map (locked_in flow list.now) self.old.held }
        ensures room { self.old.room ≤ self.new.room }
        ensures vault { (recorded : List (Id × Recorded)) (locks : List Lock)
            → IsVault self.old.party recorded locks self.old.held
            → IsVault self.old.party recorded (locks ++ locks_of flow list.now) self.new.held }
    {
        lock_each(&mut self.states, flow, list.as_slice());
    }

    /// Releases all that a flow has locked. It takes no memory.
    pub fn release(&mut self, flow: u32)
        ensures party { self.new.party ≡ self.old.party }
        ensures held { self.new.held ≡ map (freed_of flow) self.old.held }
        ensures room { self.old.room ≤ self.new.room }
        ensures vault { (recorded : List (Id × Recorded)) (locks : List Lock)
            → IsVault self.old.party recorded locks self.old.held
            → IsVault self.old.party recorded (released flow locks) self.new.held }
    {
        free_each(&mut self.states, flow);
    }

    /// The law that each state of the vault is within its limits and relevant to the party. It takes no work.
    pub fn law_keeps_limits(&self)
        ensures limits { AllByRecursion IsHeld self.now.held }
        ensures relevant { list_all (is_own self.now.party) self.now.held ≡ true }
    {
        let _ = &self.states;
    }
}
