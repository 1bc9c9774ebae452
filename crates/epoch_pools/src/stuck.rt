//! What the taking of a node answers. The pools of ready nodes, of nodes on their way home and of the barrier before a
//! node is used again are this project's own profile, after the epochs of Fraser 2004; a reader may rely on each answer
//! having its cause at a step of the call that gives it (`specs/Taking.antt`).

/// Why there is no node to take.
#[derive(Clone, Copy, Debug, PartialEq, Eq)]
pub enum Stuck {
    /// A node came home, and another seat may still be on its way to it: that seat has been inside its operation of
    /// this epoch since then.
    Inside {
        /// The number of the other seat, the lowest that isn't passed.
        seat: u32,
        /// Its epoch, which is odd.
        epoch: u64,
    },
    /// Every used node is still in the list, or in the hand of the seat that unlinked it.
    Away {
        /// The lowest of the used nodes.
        node: u32,
    },
}

/// What a call of `take` came to.
#[derive(Clone, Copy, Debug, PartialEq, Eq)]
pub enum Taken {
    /// This node is the hand's own from now on. Nobody else can reach it.
    Node(u32),
    /// There is no node.
    Out(Stuck),
}
